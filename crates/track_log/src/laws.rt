// A law of the texts of logs.
ghost use Rattle.track_log.specs.Laws.{TextsTellLogs};

/// No two logs of a line have the same text: what is said of bytes is said of one log.
pub fn texts_tell_logs()
    ensures { TextsTellLogs }
{}
