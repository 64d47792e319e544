//! The statuses of reports that no program has.

ghost use Rattle.std.specs.Prelude.{◌≡◌};

/// The buffer has no room for the bytes that are due.
pub const TOO_SHORT: u8 = 8;

/// The bytes are no tape.
pub const BAD_TAPE: u8 = 18;

/// A number that chooses a style or a rule names none.
pub const BAD_CHOICE: u8 = 19;

/// A line of the paths is no path.
pub const BAD_PATH: u8 = 20;

/// The number of each status that no program has. `status_laws` of `sval_program` has the others.
pub fn status_laws()
    ensures too_short { TOO_SHORT ≡ 8 }
    ensures bad_tape { BAD_TAPE ≡ 18 }
    ensures bad_choice { BAD_CHOICE ≡ 19 }
    ensures bad_path { BAD_PATH ≡ 20 }
{}
