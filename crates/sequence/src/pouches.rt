ghost use Rattle.std.specs.Prelude.{◌≡◌, ◌<◌, length, Some, None, slice_index_or, slice_set};
ghost use Rattle.sequence.specs.Pouches.{Taken, Free};

use workbench::workbench::Ticket;

/// Whether the pouch has this place and it is empty.
pub(crate) fn is_free(pouch: &[Option<Ticket>], place: usize) -> bool
    ensures { Free pouch.now place result }
{
    pouch.get(place).is_some_and(|slot| slot.is_none())
}

/// Takes out the ticket that lies at a place, if one does.
pub(crate) fn take(pouch: &mut [Option<Ticket>], place: usize) -> Option<Ticket>
    ensures { Taken pouch.old place result pouch.new }
{
    // By index: of what is written through `get_mut` no proof knows the values afterwards.
    if place >= pouch.len() {
        return None;
    }
    pouch[place].take()
}

/// Puts a ticket at an empty place.
pub(crate) fn put(pouch: &mut [Option<Ticket>], place: usize, ticket: Ticket)
    requires inside { place < length pouch.old }
    requires empty { slice_index_or pouch.old place None ≡ None }
    ensures { pouch.new ≡ slice_set pouch.old place (Some ticket) }
{
    match pouch[place].replace(ticket) {
        None => {}
        Some(_other) => unreachable!(),
    }
}
