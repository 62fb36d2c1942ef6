//! Where an item ends whose bytes come in pieces.

ghost use Rattle.std.specs.Prelude.{ℕ, List, [], ◌≡◌, ◌+◌, ◌++◌, ◌↔◌, ◌<◌, ◌≤◌, length};
ghost use Rattle.msgpack_bytes.specs.declared.answers.Scan.{Scan};
ghost use Rattle.msgpack_bytes.specs.declared.answers.PieceScan.{PieceScan};
ghost use Rattle.msgpack_bytes.specs.Item.{IsOpen};
ghost use Rattle.msgpack_bytes.specs.Answers.{IsScanned};
ghost use Rattle.msgpack_bytes.specs.Pieces.{IsAfter, IsTaken};
ghost use Rattle.msgpack_bytes.specs.Steps.{BeginsSame};
ghost use Rattle.msgpack_bytes.specs.Going.{Stands, Goes};

use crate::answers::{MsgFault, PieceScan};
use crate::format::ScanStep;
use crate::number::byte;
use crate::steps::next_step;
use std::marker::Model;

/// The greatest length of an item, in bytes.
pub const LONGEST: usize = 16_777_216;

/// How many containers may stand one in another.
pub const DEEPEST: usize = 64;

/// How many bytes the header of an item has at most.
const HEADER: usize = 5;

/// A scan of one item whose bytes come in pieces: each piece is looked at once, whatever its size.
///
/// It keeps how many items are missing on each level, and the first bytes of what is cut; it takes
/// no memory. `IsAfter` ties it to the bytes that it was given so far, one piece after another.
#[derive(Drop)]
pub struct Scanner {
    // How many items each level still lacks; a fixed stack, so that no input asks for memory.
    missing: [u32; DEEPEST + 1],
    place: Place,
    // The first bytes of the item that is cut, and 0 for those that haven't come.
    front: [u8; HEADER],
    // What is answered from now on.
    over: Option<PieceScan>,
}

impl Model for Scanner {
    ghost use Rattle.msgpack_bytes.specs.Pieces.{Scanning, HasSeen};

    ghost Value = { Scanning };

    ghost view = { λ s. record {
      missing = s.missing;
      place = s.place;
      front = s.front;
      over = s.over;
    } };

    ghost invariant = { λ s. HasSeen
        (record { missing = s.missing; place = s.place; front = s.front; over = s.over }) };
}

impl Scanner {
    /// No byte came yet.
    pub fn new() -> Scanner
        ensures { IsAfter result [] }
    {
        let mut missing = [0; DEEPEST + 1];
        missing[0] = 1;
        Scanner {
            missing,
            place: Place {
                levels: 1,
                room: LONGEST - 1,
                came: 0,
            },
            front: [0; HEADER],
            over: None,
        }
    }

    /// Takes the next piece, and answers as `scan` does of all bytes so far, with the end counted
    /// from the piece's first byte: 0 where the item ended before it. So `End` and `Bad` stay,
    /// whatever follows.
    pub fn take(&mut self, piece: &[u8]) -> PieceScan
        ensures right { (seen : List ℕ) → IsAfter self.old seen → IsTaken seen piece.now result }
        ensures only { (seen : List ℕ) → IsAfter self.old seen → (other : PieceScan)
            → IsTaken seen piece.now other → other ≡ result }
        ensures after { (seen : List ℕ) → IsAfter self.old seen
            → IsAfter self.new (seen ++ piece.now) }
        // So more is asked for exactly where all bytes so far are open.
        ensures need { (seen : List ℕ) → IsAfter self.old seen → (result ≡ PieceScan.Need)
            ↔ IsOpen (seen ++ piece.now) }
    {
        if let Some(answer) = self.over {
            return answer;
        }
        fill(&mut self.front, self.place.came, piece);
        match go_on(&mut self.missing, &self.front, piece, self.place) {
            Went::Ended(n) => {
                self.over = Some(PieceScan::End(0));
                PieceScan::End(n)
            }
            Went::Bad(fault) => {
                self.over = Some(PieceScan::Bad(fault));
                PieceScan::Bad(fault)
            }
            Went::Cut(place, at) => {
                let (_, rest) = piece.split_at(at);
                self.front = kept(&self.front, place.came, rest);
                self.place = Place {
                    came: place.came + rest.len(),
                    ..place
                };
                PieceScan::Need
            }
        }
    }
}

/// What a scan goes on from.
#[derive(Clone, Copy, Drop, PartialEq, Eq)]
pub struct Place {
    /// On how many levels items may be missing.
    pub levels: usize,
    /// How far the least end may still move on, where each missing item takes one byte.
    pub room: usize,
    /// How many bytes of the next item came in earlier pieces; it is cut where there are any.
    pub came: usize,
}

/// How far a scan went in a piece.
enum Went {
    /// The item ends here.
    Ended(usize),
    /// No item begins so.
    Bad(MsgFault),
    /// The piece ends inside the scalar or the header that begins here, or in an earlier piece.
    Cut(Place, usize),
}

// Puts the bytes that follow behind those that came of an item's front.
fn fill(front: &mut [u8; HEADER], came: usize, follow: &[u8])
    ensures { (part : List ℕ) → length part ≡ came → BeginsSame 5 front.old part
        → BeginsSame 5 front.new (part ++ follow.now) }
{
    for k in came..HEADER {
        front[k] = byte(follow, k - came) as u8;
    }
}

// The first bytes of what is cut, of which `came` bytes stood in earlier pieces and these in the
// last.
fn kept(front: &[u8; HEADER], came: usize, rest: &[u8]) -> [u8; HEADER]
    ensures { (all : List ℕ) → (came ≡ 0 → all ≡ rest.now)
        → (0 < came → BeginsSame 5 front.now all) → BeginsSame 5 result all }
{
    if came > 0 {
        return *front;
    }
    let mut fresh = [0; HEADER];
    fill(&mut fresh, 0, rest);
    fresh
}

// Goes over the items of the piece.
fn go_on(missing: &mut [u32; DEEPEST + 1], front: &[u8; HEADER], piece: &[u8], place: Place) -> Went
    requires { (seen : List ℕ) × Stands seen piece.now front.now missing.old place 0 }
    ensures { (seen : List ℕ) → Stands seen piece.now front.now missing.old place 0
        → Goes seen piece.now front.now missing.new result }
{
    let mut levels = place.levels;
    let mut room = place.room;
    let mut came = place.came;
    let mut at = 0;
    while levels > 0 {
        let left = missing[levels - 1];
        if left == 0 {
            levels -= 1;
        } else {
            match next_step(front, came, piece, at, levels <= DEEPEST) {
                ScanStep::Wrong => return Went::Bad(MsgFault::Reserved),
                ScanStep::Deep => return Went::Bad(MsgFault::TooDeep),
                ScanStep::Lacks(size) if size - 1 <= room => {
                    return Went::Cut(Place { levels, room, came }, at);
                }
                ScanStep::Whole(size) if size - 1 <= room => {
                    missing[levels - 1] = left - 1;
                    room -= size - 1;
                    at += size - came;
                    came = 0;
                }
                ScanStep::Opens { items, size } if size - 1 + items as usize <= room => {
                    missing[levels - 1] = left - 1;
                    missing[levels] = items as u32;
                    levels += 1;
                    room -= size - 1 + items as usize;
                    at += size - came;
                    came = 0;
                }
                _ => return Went::Bad(MsgFault::TooLong),
            }
        }
    }
    Went::Ended(at)
}
