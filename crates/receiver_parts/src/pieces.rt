//! Pieces of a file: the octets that PDUs brought, in the memory of these PDUs.
ghost use Rattle.std.specs.Prelude.{◌≡◌, ℕ, ◌+◌, ◌-◌, ◌<◌, ◌≤◌, ◌++◌, max, if◌then◌else◌, All, IfOk, OnOk, length, slice_get, slice_index, unwrap_or, vec_len, vec_capacity, map, take, drop};
ghost use Rattle.smallvec.specs.SmallVec.{small_vec_len};
ghost use Rattle.gap_list.specs.Runs.{is_within};
ghost use Rattle.modular_sum.specs.Pieces.{octet_from, sum_after};
ghost use Rattle.receiver_parts.specs.Offsets.{octet_in, part_of, piece_of};

use cfdp_types::Octets;
use gap_list::Run;
use modular_sum::Running;
use smallvec::SmallVec;
use std::alloc::{AllocError, Global};

/// Consecutive octets of a file.
#[derive(Debug, Default, Drop)]
pub struct Piece {
    /// The offset in the file of the first octet.
    pub offset: u32,
    /// The octets, in the memory of the PDU that brought them.
    pub octets: Octets,
}

/// Pieces of one segment. A single piece, the usual case, takes no memory of its own.
pub type Pieces = SmallVec<Piece, 1>;

// The octets of a segment at the offsets of a run.
fn slice_of(octets: &[u8], offset: u32, run: Run) -> &[u8]
    requires begins { offset ≤ run.start }
    requires ordered { run.start ≤ run.end }
    requires ends { run.end ≤ offset + length octets.now }
    ensures { result.now ≡ take (run.end - run.start) (drop (run.start - offset) octets.now) }
{
    &octets[(run.start - offset) as usize..(run.end - offset) as usize]
}

/// The checksum once the octets of a segment at the offsets of the runs are added.
pub fn sum_with_runs(sum: Running, runs: &[Run], offset: u32, octets: &[u8]) -> Running
    requires inside { All
        (λ run. (offset ≤ run.start) × (run.start ≤ run.end) × (run.end ≤ offset + length octets.now)) runs.now }
    ensures { result ≡ sum_after sum (map (piece_of offset octets.now) runs.now) }
{
    let mut sum = sum;
    for run in runs {
        sum.add(run.start, slice_of(octets, offset, *run));
    }
    sum
}

// The piece of a segment at the offsets of a run, which shares the segment's memory.
fn part_of(octets: &Octets, offset: u32, run: Run) -> Result<Piece, AllocError>
    requires begins { offset ≤ run.start }
    requires ordered { run.start ≤ run.end }
    requires ends { run.end ≤ offset + length octets.now }
    ensures { IfOk result (λ piece. piece ≡ part_of offset octets.now run) }
{
    let start = (run.start - offset) as usize;
    let end = (run.end - offset) as usize;
    Ok(Piece {
        offset: run.start,
        octets: octets.part(start, end)?,
    })
}

/// The pieces of a segment at the offsets of the runs, which share the segment's memory.
pub fn parts_of(
    alloc: Global,
    octets: &Octets,
    offset: u32,
    runs: &[Run],
) -> Result<Pieces, AllocError>
    requires inside { All
        (λ run. (offset ≤ run.start) × (run.start ≤ run.end) × (run.end ≤ offset + length octets.now)) runs.now }
    ensures { IfOk result (λ pieces. pieces.items ≡ map (part_of offset octets.now) runs.now) }
{
    let mut pieces = Pieces::with_capacity(alloc, runs.len())?;
    for run in runs {
        pieces.push(part_of(octets, offset, *run)?)?;
    }
    Ok(pieces)
}

// Lengthens a vector to at least `wanted` octets, with 0 for the new ones.
fn lengthen(octets: &mut Vec<u8>, wanted: usize) -> Result<(), AllocError>
    ensures same { (i : ℕ) → slice_index octets.new.items i ≡ slice_index octets.old.items i }
    ensures len { OnOk result (vec_len octets.new ≡ max (vec_len octets.old) wanted) }
{
    if octets.len() < wanted {
        octets.resize(wanted, 0)?;
    }
    Ok(())
}

// Writes octets over those from `start` on.
fn overwrite_slice(kept: &mut [u8], start: usize, octets: &[u8])
    requires { start + length octets.now ≤ length kept.old }
    ensures items { (i : ℕ) → slice_get kept.new i ≡ (if is_within start (start + length octets.now) i
        then slice_get octets.now (i - start) else slice_get kept.old i) }
    ensures len { length kept.new ≡ length kept.old }
{
    kept[start..start + octets.len()].copy_from_slice(octets);
}

// Writes octets over those from `start` on, in a vector that reaches that far.
fn overwrite(kept: &mut Vec<u8>, start: usize, octets: &[u8])
    requires { start + length octets.now ≤ vec_len kept.old }
    ensures items { (i : ℕ) → slice_get kept.new.items i ≡ (if is_within start (start + length octets.now) i
        then slice_get octets.now (i - start) else slice_get kept.old.items i) }
    ensures len { vec_len kept.new ≡ vec_len kept.old }
{
    overwrite_slice(kept, start, octets);
}

// Writes octets from `start` on, with 0 at the offsets below `start` that a vector lacks.
fn put(kept: &mut Vec<u8>, start: usize, octets: &[u8]) -> Result<(), AllocError>
    requires { start ≤ 0xffff_ffff }
    ensures { OnOk result ((i : ℕ) → slice_index kept.new.items i
        ≡ unwrap_or (octet_from start octets.now i) (slice_index kept.old.items i)) }
{
    lengthen(kept, start)?;
    if kept.len() == start {
        kept.extend_from_slice(octets)?;
    } else {
        lengthen(kept, start + octets.len())?;
        overwrite(kept, start, octets);
    }
    Ok(())
}

/// Puts pieces together in an empty vector, with 0 at the offsets that no piece has.
pub fn put_pieces(kept: &mut Vec<u8>, pieces: &[Piece]) -> Result<(), AllocError>
    requires { vec_len kept.old ≡ 0 }
    ensures { OnOk result ((i : ℕ) → slice_index kept.new.items i ≡ unwrap_or (octet_in pieces.now i) 0) }
{
    for piece in pieces {
        put(kept, piece.offset as usize, piece.octets.as_slice())?;
    }
    Ok(())
}

/// Cuts a vector to a size, or lengthens it to that size with zeros.
pub fn resize(kept: &mut Vec<u8>, size: usize) -> Result<(), AllocError>
    ensures same { OnOk result ((i : ℕ) → i < size → slice_index kept.new.items i ≡ slice_index kept.old.items i) }
    ensures len { OnOk result (vec_len kept.new ≡ size) }
{
    kept.resize(size, 0)
}

/// Appends pieces, without allocating.
pub fn append(pieces: &mut Vec<Piece>, more: Pieces)
    requires { vec_len pieces.old + small_vec_len more ≤ vec_capacity pieces.old }
    ensures { pieces.new.items ≡ pieces.old.items ++ more.items }
{
    for piece in more {
        pieces.push_reserved(piece);
    }
}
