//! The place of a container, as parts keep it.

ghost use Rattle.std.specs.Prelude.{◌≡◌, ◌≤◌, ◌-◌, ◌^◌, Some, None, IfSome};
ghost use Rattle.sval_buffer.specs.SeenHolder.{held_place};

/// The place of the container that holds a part, if one does. It takes 32 bits.
#[derive(Clone, Copy)]
pub(crate) struct Holder {
    /// One more than the place, or 0.
    after: u32,
}

impl Holder {
    /// No container.
    pub(crate) fn none() -> Holder
        ensures { held_place result ≡ None }
    {
        Holder { after: 0 }
    }

    /// Keeps a place, if it is below 2^32 - 1.
    pub(crate) fn new(place: usize) -> Option<Holder>
        ensures same { IfSome result (λ holder. held_place holder ≡ Some place) }
        ensures too_far { result ≡ None → 2 ^ 32 - 1 ≤ place }
    {
        Some(Holder {
            after: u32::try_from(place).ok()?.checked_add(1)?,
        })
    }

    /// The place.
    pub(crate) fn get(self) -> Option<usize>
        ensures { result ≡ held_place self }
    {
        match self.after.checked_sub(1) {
            Some(place) => Some(place as usize),
            None => None,
        }
    }
}
