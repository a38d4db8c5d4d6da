//! A law: the table `[stations]` is no part of the match. This function does nothing: it stands for the law that it ensures.

ghost use Rattle.std.specs.Prelude.{◌≡◌};
ghost use Rattle.toml.specs.Data.{Members};
ghost use Rattle.cards.specs.Reading.{sheet_from};
ghost use Rattle.station_table.specs.Stations.{DifferInStations};

/// Two sheets that differ only in `[stations]` are read as the same sheet, so they have the same digest and the same seal.
pub fn stations_are_not_of_the_sheet()
    ensures { (ms ns : Members) → DifferInStations ms ns → sheet_from ms ≡ sheet_from ns }
{}
