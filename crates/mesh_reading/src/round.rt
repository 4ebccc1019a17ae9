//! A round: the bytes of a text that several workers read at the same time, filled straight from its source.
ghost use Rattle.std.specs.Prelude.{◌≡◌, ◌≤◌, ◌+◌, IfErr, IfOk, List, Ok, OnOk, Option, [], length, take, ℕ};
ghost use Rattle.std.specs.Io.KnownBytes.{Consumes, IsAtEnd};
ghost use Rattle.devices.specs.Devices.{Fails};
ghost use Rattle.mesh_reading.specs.Loading.{IsFilled};
ghost use Rattle.mesh_reading.specs.Round.{no_round};
ghost use Rattle.mesh_reading.specs.declared.read_fault.ReadFault.TheVariants.{Read};
ghost use Rattle.mesh_reading.specs.declared.round.TheConstants.{FIRST_LEN};

use crate::read_fault::ReadFault;
use crate::window::{LEAST_READ, WINDOW_LEN, fill};
use devices::Source;
use geometry::Facet;
use std::alloc::{AllocError, Allocator};
use std::marker::Model;
use std::mem::swap;

/// The number of bytes that the first round waits for. It is short, so that parsing begins soon.
const FIRST_LEN: usize = 1 << 18;

/// The bytes of a round, in room that is kept from one filling to the next. The room grows by a window if too little of
/// it is left for a read. So a short text touches no more memory than it needs. What follows the first `len` bytes is
/// not part of the round.
#[derive(Drop)]
pub(crate) struct Round<A: Allocator> {
    room: Vec<u8, A>,
    len: usize,
    /// The number of bytes that the round waits for if the source has that much.
    wanted: usize,
    /// Whether the source has no more after the round.
    is_last: bool,
}

impl<A: Allocator> Model for Round<A> {
    ghost use Rattle.std.specs.Prelude.{◌≤◌, length, take};
    ghost use Rattle.mesh_reading.specs.Round.{Round};

    ghost Value = { Round };

    ghost view = { λ r. record { bytes = take r.len r.room.items; wanted = r.wanted; is_last = r.is_last } };

    ghost invariant = { λ r. r.len ≤ length r.room.items };
}

impl<A: Allocator> Round<A> {
    /// A round without bytes, which is to be filled with `wanted` bytes and up to a window more. It is not the last one. Its room
    /// does not move until it has more than `limit` bytes.
    fn new(alloc: A, wanted: usize, limit: usize) -> Result<Round<A>, AllocError>
        ensures { IfOk result (λ round. round ≡ no_round wanted) }
    {
        Ok(Round {
            room: Vec::with_capacity(alloc, limit.saturating_add(WINDOW_LEN))?,
            len: 0,
            wanted,
            is_last: false,
        })
    }

    /// The bytes of the round.
    pub(crate) fn bytes(&self) -> &[u8]
        ensures { result.now ≡ self.now.bytes }
    {
        let (bytes, _) = self.room.split_at(self.len);
        bytes
    }

    /// Whether the source has no more after the round.
    pub(crate) fn is_last(&self) -> bool
        ensures { result ≡ self.now.is_last }
    {
        self.is_last
    }

    /// Fills the round anew with what a source has next. At the end of the source it becomes the last round. If it is the last
    /// already, it is left empty, and the source is not read.
    pub(crate) fn fill<I: Source>(&mut self, source: &mut I) -> Result<(), ReadFault>
        ensures { IsFilled I.remaining I.Failures.failure_count source.old source.new self.old self.new result }
    {
        self.len = 0;
        if self.is_last {
            return Ok(());
        }
        'round: while self.len < self.wanted {
            make_room(&mut self.room, self.len)?;
            let count = fill_after(source, self.room.as_mut_slice(), self.len)?;
            if count == 0 {
                self.is_last = true;
                return Ok(());
            }
            self.len += count;
        }
        Ok(())
    }
}

/// The round that is to be read, the one after it, and the facets that are not welded yet.
#[derive(Drop)]
pub(crate) struct Rounds<A: Allocator> {
    /// The facets of the round before, which are not welded yet.
    pub(crate) facets: Vec<Facet, A>,
    /// The round that is to be read.
    pub(crate) round: Round<A>,
    /// The round after it, which is to be filled.
    pub(crate) next: Round<A>,
    /// The greatest number of bytes that a round waits for.
    limit: usize,
}

impl<A: Allocator + Copy> Rounds<A> {
    /// Two rounds without bytes, of which each waits for `FIRST_LEN` bytes, and no facets. Later ones wait for up to `limit` bytes.
    pub(crate) fn new(alloc: A, limit: usize) -> Result<Rounds<A>, AllocError>
        ensures facets { IfOk result (λ rounds. rounds.facets.items ≡ []) }
        ensures round { IfOk result (λ rounds. rounds.round ≡ no_round FIRST_LEN) }
        ensures next { IfOk result (λ rounds. rounds.next ≡ no_round FIRST_LEN) }
    {
        Ok(Rounds {
            facets: Vec::new(alloc),
            round: Round::new(alloc, FIRST_LEN, limit)?,
            next: Round::new(alloc, FIRST_LEN, limit)?,
            limit,
        })
    }

    /// Makes the next round the one that is to be read. The other is to be filled after it, so it is the last too if this one is.
    /// It waits for twice as many bytes, up to the limit.
    pub(crate) fn turn(&mut self)
        ensures round { self.new.round ≡ self.old.next }
        ensures last { self.new.next.is_last ≡ self.old.next.is_last }
        ensures facets { self.new.facets.items ≡ self.old.facets.items }
    {
        swap(&mut self.round, &mut self.next);
        self.next.is_last = self.round.is_last;
        self.next.wanted = self.round.wanted.saturating_mul(2).min(self.limit);
    }
}

/// Makes room for a read after the first `len` bytes, if what is left there is too little.
fn make_room<A: Allocator>(room: &mut Vec<u8, A>, len: usize) -> Result<(), AllocError>
    ensures same { take (length room.old.items) room.new.items ≡ room.old.items }
    ensures enough { OnOk result (len ≤ length room.old.items → len + LEAST_READ ≤ length room.new.items) }
{
    if room.len().saturating_sub(len) < LEAST_READ {
        return grow(room);
    }
    Ok(())
}

/// Makes room for a window more.
fn grow<A: Allocator>(room: &mut Vec<u8, A>) -> Result<(), AllocError>
    ensures same { take (length room.old.items) room.new.items ≡ room.old.items }
    ensures more { OnOk result (length room.new.items ≡ length room.old.items + WINDOW_LEN) }
{
    room.extend_from_slice(&[0; WINDOW_LEN])
}

/// Fills the bytes after the first `len` from a source. Returns how many came, which is 0 only at its end.
fn fill_after<I: Source>(source: &mut I, bytes: &mut [u8], len: usize) -> Result<usize, ReadFault>
    requires { len + LEAST_READ ≤ length bytes.old }
    ensures len { length bytes.new ≡ length bytes.old }
    ensures within { IfOk result (λ count. len + count ≤ length bytes.old) }
    ensures taken { IfOk result (λ count. (start : Option (List ℕ)) → Consumes start (I.remaining source.old) (take len bytes.old)
        → Consumes start (I.remaining source.new) (take (len + count) bytes.new)) }
    ensures end { result ≡ Ok 0 → IsAtEnd (I.remaining source.new) }
    ensures err { IfErr result (λ fault. (fault ≡ Read) × Fails (I.Failures.failure_count source.old) (I.Failures.failure_count source.new)) }
    ensures sound { OnOk result (I.Failures.failure_count source.new ≡ I.Failures.failure_count source.old) }
{
    let (_, rest) = bytes.split_at_mut(len);
    fill(source, rest)
}
