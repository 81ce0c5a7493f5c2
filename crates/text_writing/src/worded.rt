// What is written as a word.
ghost use Rattle.std.specs.Prelude.{◌≡◌, ℕ, List};

/// What has a word of its own in a text.
pub trait Worded: Copy {
    ghost word: { Self → List ℕ };

    /// The word, as its bytes.
    fn word(&self) -> &'static [u8]
        ensures { result.now ≡ word self.now };
}
