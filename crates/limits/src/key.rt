//! The keys of the table `limits`.

ghost use Rattle.std.specs.Prelude.{◌≡◌};
ghost use Rattle.limits.specs.Keys as names;

/// The table `limits` of a sheet, and its keys.
#[derive(Clone, Copy)]
pub enum Key {
    /// The table itself.
    Table,
    /// The number of overs of an innings.
    Overs,
    /// The number of overs that a bowler may bowl in an innings.
    OversABowler,
    /// Whether the delivery after a No ball is a free hit.
    FreeHits,
    /// The overs that are powerplays.
    Powerplays,
}

/// The table and all its keys, in the order in which they are reported.
pub const KEYS: [Key; 5] = [
    Key::Table,
    Key::Overs,
    Key::OversABowler,
    Key::FreeHits,
    Key::Powerplays,
];

impl Key {
    /// Returns the key's name in a sheet.
    pub fn name(self) -> &'static str
        ensures { result.now ≡ names.name_of self }
    {
        match self {
            Key::Table => "limits",
            Key::Overs => "limits.overs",
            Key::OversABowler => "limits.overs_a_bowler",
            Key::FreeHits => "limits.free_hits",
            Key::Powerplays => "limits.powerplays",
        }
    }
}
