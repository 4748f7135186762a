// The room that a map and a scenario are read into.
#![tactic(auto)]

ghost use Rattle.std.specs.Prelude.{◌≡◌};
ghost use Rattle.file_room.specs.Room.{map_bytes, scenario_bytes};

// So many first bytes of a map and of a scenario decide what they read as, however long the files are.
pub const MAP_BYTES: usize = 4264;

pub const SCENARIO_BYTES: usize = 14 + paper::CARRIERS * 193;

// They are those of the theorem: this function does nothing, its statement says it.
pub fn limits()
    ensures map { MAP_BYTES ≡ map_bytes }
    ensures scenario { SCENARIO_BYTES ≡ scenario_bytes }
{}
