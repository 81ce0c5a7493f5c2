// The keys of a line file, table by table, with the kinds and ranges of their values.
ghost use Rattle.std.specs.Prelude.{◌≡◌};
ghost use Rattle.line_text.specs.Fields.{
  name_of,
  must_have,
  may_have,
  root_rules,
  tank_rules,
  first_stage_rules,
  single_stage_rules,
  inner_stage_rules,
  last_stage_rules,
};

use hoist_base::limits::{
    MAX_DEGREE, MAX_DWELL, MAX_GAP, MAX_HOISTS, MAX_LIFT, MAX_LOWER, MAX_STAGES, MAX_TANKS,
    MAX_TANKS_OF_STAGE, MAX_TRACK, MIN_STAGES, MIN_TANKS, PERIOD_LIMIT,
};

/// The keys of a line file. `tank` is a key of the root and of stages.
#[derive(Clone, Copy, Debug, PartialEq, Eq)]
pub enum Field {
    Version,
    Track,
    Gap,
    Hoists,
    Degree,
    MaxPeriod,
    Load,
    Unload,
    Tank,
    Stage,
    Name,
    At,
    Tanks,
    Min,
    Max,
    Lift,
    Lower,
}

impl Field {
    /// The key as it is written.
    pub fn name(self) -> &'static str
        ensures { result.now ≡ name_of self }
    {
        match self {
            Field::Version => "version",
            Field::Track => "track",
            Field::Gap => "gap",
            Field::Hoists => "hoists",
            Field::Degree => "degree",
            Field::MaxPeriod => "max_period",
            Field::Load => "load",
            Field::Unload => "unload",
            Field::Tank => "tank",
            Field::Stage => "stage",
            Field::Name => "name",
            Field::At => "at",
            Field::Tanks => "tanks",
            Field::Min => "min",
            Field::Max => "max",
            Field::Lift => "lift",
            Field::Lower => "lower",
        }
    }
}

/// The kind of a value. An integer is from `low` to `high`; an array has `low` to `high` items, all of them
/// tables or all of them strings.
#[derive(Clone, Copy, Debug, PartialEq, Eq)]
pub enum Kind {
    Integer { low: u32, high: u32 },
    Text,
    Tables { low: u32, high: u32 },
    Texts { low: u32, high: u32 },
}

/// A key that a table may have, or must have where it is `required`, and the kind of its value.
#[derive(Clone, Copy, Debug, PartialEq, Eq)]
pub struct Rule {
    pub field: Field,
    pub required: bool,
    pub kind: Kind,
}

fn required(field: Field, kind: Kind) -> Rule
    ensures { result ≡ must_have field kind }
{
    Rule {
        field,
        required: true,
        kind,
    }
}

fn optional(field: Field, kind: Kind) -> Rule
    ensures { result ≡ may_have field kind }
{
    Rule {
        field,
        required: false,
        kind,
    }
}

fn integer(low: u32, high: u32) -> Kind
    ensures { result ≡ Kind.Integer low high }
{
    Kind::Integer { low, high }
}

/// The keys of the root table.
pub fn root_rules() -> [Rule; 10]
    ensures { result ≡ root_rules }
{
    [
        required(Field::Version, integer(1, 2)),
        required(Field::Track, integer(1, MAX_TRACK)),
        required(Field::Gap, integer(1, MAX_GAP)),
        required(Field::Hoists, integer(1, MAX_HOISTS)),
        required(Field::Degree, integer(1, MAX_DEGREE)),
        required(Field::MaxPeriod, integer(1, PERIOD_LIMIT)),
        required(Field::Load, integer(0, MAX_DWELL)),
        required(Field::Unload, integer(0, MAX_DWELL)),
        required(
            Field::Tank,
            Kind::Tables {
                low: MIN_TANKS,
                high: MAX_TANKS,
            },
        ),
        required(
            Field::Stage,
            Kind::Tables {
                low: MIN_STAGES,
                high: MAX_STAGES,
            },
        ),
    ]
}

/// The keys of a tank on a track of this length.
pub fn tank_rules(track: u32) -> [Rule; 2]
    ensures { result ≡ tank_rules track }
{
    [
        required(Field::Name, Kind::Text),
        required(Field::At, integer(0, track)),
    ]
}

/// The keys of the first stage.
pub fn first_stage_rules() -> [Rule; 2]
    ensures { result ≡ first_stage_rules }
{
    [
        required(Field::Tank, Kind::Text),
        required(Field::Lift, integer(1, MAX_LIFT)),
    ]
}

/// The keys of an inner stage in a file of version 1: it names one tank.
pub fn single_stage_rules() -> [Rule; 5]
    ensures { result ≡ single_stage_rules }
{
    [
        required(Field::Tank, Kind::Text),
        required(Field::Min, integer(1, MAX_DWELL)),
        optional(Field::Max, integer(1, MAX_DWELL)),
        required(Field::Lift, integer(1, MAX_LIFT)),
        required(Field::Lower, integer(1, MAX_LOWER)),
    ]
}

/// The keys of an inner stage in a file of version 2: it names one to four tanks.
pub fn inner_stage_rules() -> [Rule; 5]
    ensures { result ≡ inner_stage_rules }
{
    [
        required(
            Field::Tanks,
            Kind::Texts {
                low: 1,
                high: MAX_TANKS_OF_STAGE,
            },
        ),
        required(Field::Min, integer(1, MAX_DWELL)),
        optional(Field::Max, integer(1, MAX_DWELL)),
        required(Field::Lift, integer(1, MAX_LIFT)),
        required(Field::Lower, integer(1, MAX_LOWER)),
    ]
}

/// The keys of the last stage.
pub fn last_stage_rules() -> [Rule; 2]
    ensures { result ≡ last_stage_rules }
{
    [
        required(Field::Tank, Kind::Text),
        required(Field::Lower, integer(1, MAX_LOWER)),
    ]
}
