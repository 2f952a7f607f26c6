// A list in memory that is lent for the day.
ghost use Rattle.std.specs.Prelude.{◌≡◌, ◌+◌, ◌<◌, ◌≤◌, length, nat_le, slice_set, take};
ghost use Rattle.station.specs.Memory.{holding};

use crate::places::Place;

// A list in lent memory: its items stand in the first places, and what stands beyond them does not count.
// The memory is the caller's for the day and nothing is allocated, so it is a part and a length, and no vector.
#[derive(Drop)]
pub(crate) struct Lent<'a, T> {
    places: &'a mut [Place<T>],
    used: usize,
    ghost fits: { used ≤ length places.now },
}

impl<'a, T: Copy> Lent<'a, T> {
    // No items yet, whatever the places hold.
    pub(crate) fn new(places: &'a mut [Place<T>]) -> Lent<'a, T>
        ensures places { result.places.now ≡ places.old }
        ensures used { result.used ≡ 0 }
        ensures lent { result.places.ghost_name ≡ places.entry.ghost_name }
    {
        Lent { places, used: 0 }
    }

    // All places.
    pub(crate) fn places(&self) -> &[Place<T>]
        ensures { result.now ≡ self.now.places.now }
    {
        self.places
    }

    // The places that hold items.
    pub(crate) fn held(&self) -> &[Place<T>]
        ensures { result.now ≡ take self.now.used self.now.places.now }
    {
        let places = &*self.places;
        &places[..self.used]
    }

    // Whether every place holds an item.
    pub(crate) fn is_full(&self) -> bool
        ensures { result ≡ nat_le (length self.now.places.now) self.now.used }
    {
        self.used >= self.places.len()
    }

    // One item more.
    pub(crate) fn push(&mut self, item: T)
        requires { self.old.used < length self.old.places.now }
        ensures places { self.new.places.now ≡ slice_set self.old.places.now self.old.used (holding item) }
        ensures used { self.new.used ≡ self.old.used + 1 }
        ensures lent { self.new.places.ghost_name ≡ self.old.places.ghost_name }
    {
        self.places[self.used] = Place { content: item };
        self.used += 1;
    }
}
