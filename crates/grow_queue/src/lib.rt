// Grow's queue (01, "Grow": "seeds by i, then j; neighbours are queued in Edge's order, each cell once"; port of
// enqueue_cardinal_neighbours of shared/grow/mod.rs and of the seeds of shared/grow_extend.rs).

#![tactic(auto)]

ghost use Rattle.std.specs.Prelude.{◌≡◌, List, ℕ, ◌≤◌, length};
ghost use Rattle.sizes.specs.Sizes.{place_count};
ghost use Rattle.sheet.specs.Cells.{OnSheet};
ghost use Rattle.passes.specs.Grow.{wanted, enqueued, spread};
ghost use Rattle.grow_queue.specs.Places.{so_far, Flagged, OnPlaces, PlacesRoom, PlacesHeld};

use positions_policy::CARDINALS;
use sheet::{Cell, Written};
use sizes::PLACES;

// Whether a cell is to be queued: it lies on the sheet, is unlabelled, and was not queued before.
fn wants(sheet: &[u16], seen: &[bool; PLACES], c: Cell) -> bool
    requires { place_count ≤ length sheet.now }
    ensures { (cells : List ℕ) → Flagged cells seen.now → result ≡ wanted sheet.now cells c }
{
    sheet::on_sheet(c)
        && {
            let place = sheet::place_of(c);
            !labels::is_labelled(sheet[place]) && !seen[place]
        }
}

// Queues a cell behind the first `tail` places if it is to be queued. Returns the queue's new end.
// Stays: as `enqueue_cardinal_neighbours` (a).
fn enqueue(
    sheet: &[u16],
    queue: &mut [u16],
    seen: &mut [bool; PLACES],
    tail: usize,
    c: Cell,
) -> usize
    requires { PlacesRoom 1 sheet.now queue.old seen.old tail }
    ensures { PlacesHeld queue.old queue.new seen.new result (enqueued sheet.now c (so_far queue.old tail)) }
{
    if wants(sheet, seen, c) {
        let place = sheet::place_of(c);
        queue[tail] = place as u16;
        seen[place] = true;
        tail + 1
    } else {
        tail
    }
}

// Queues the four cardinal neighbours of a cell, in the order +i, -i, +j, -j, behind the first `tail` places of a lent buffer, whatever numbers
// these hold; `seen` says which places of the sheet they are. Returns the queue's new end.
// Stays: the lent buffer may hold any numbers, where a `Queue` has places of the sheet alone, so that it would ask more (a).
pub fn enqueue_cardinal_neighbours(
    sheet: &[u16],
    queue: &mut [u16],
    seen: &mut [bool; PLACES],
    tail: usize,
    c: Cell,
) -> usize
    requires { PlacesRoom 4 sheet.now queue.old seen.old tail × OnSheet c }
    ensures { PlacesHeld queue.old queue.new seen.new result (spread sheet.now c (so_far queue.old tail)) }
{
    let mut end = tail;
    for offset in CARDINALS {
        end = enqueue(sheet, queue, seen, end, sheet::neighbour(c, offset));
    }
    end
}

// The queue, in a lent buffer of places: its first `tail` places are the cells queued so far, and of these the first `head` are taken.
// `seen` says which places those are.
#[derive(Drop)]
pub struct Queue<'a> {
    pub places: &'a mut [u16],
    pub seen: [bool; PLACES],
    pub head: usize,
    pub tail: usize,
    ghost within: { tail ≤ length places.now },
    ghost upto: { head ≤ tail },
    ghost flagged: { Flagged (so_far places.now tail) seen },
    ghost on_places: { OnPlaces (so_far places.now tail) },
}

impl<'a> Queue<'a> {
    ghost use Rattle.grow_queue.specs.Queue.{queued, Empty, Room, QueueHeld, Unqueued, seeded, Taken};

    // A queue of no cell.
    pub fn new(places: &'a mut [u16]) -> Queue<'a>
        ensures same_places { result.places.ghost_name ≡ places.entry.ghost_name }
        ensures empty { Empty places.old result }
    {
        Queue {
            places,
            seen: [false; PLACES],
            head: 0,
            tail: 0,
        }
    }

    // Takes the first cell that is not taken yet.
    pub fn pop(&mut self) -> Option<Cell>
        ensures { Taken self.old self.new result }
    {
        if self.head == self.tail {
            return None;
        }
        let place = usize::from(self.places[self.head]);
        self.head += 1;
        Some(sheet::cell_of(place))
    }

    // Queues the four cardinal neighbours of a cell, in the order +i, -i, +j, -j.
    pub fn enqueue_cardinal_neighbours(&mut self, sheet: &[u16], c: Cell)
        requires { Room 4 sheet.now self.old × OnSheet c }
        ensures { QueueHeld self.old self.new (spread sheet.now c (queued self.old)) }
    {
        self.tail = enqueue_cardinal_neighbours(sheet, self.places, &mut self.seen, self.tail, c);
    }

    // Queues the neighbours of all labelled cells, by i, then j.
    pub fn seed(&mut self, sheet: &[u16])
        requires { Unqueued sheet.now self.old }
        ensures { QueueHeld self.old self.new (seeded sheet.now) }
    {
        for (place, _) in Written::new(sheet).filter(|(_, word)| labels::is_labelled(*word)) {
            self.enqueue_cardinal_neighbours(sheet, sheet::cell_of(place));
        }
    }
}
