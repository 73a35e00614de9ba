ghost use Rattle.std.specs.Prelude.{◌≡◌, ◌+◌, ◌≤◌, ◌++◌, ◌∷◌, [], ℕ, length, replicate, IfOk, IfSome, MatchOption};
ghost use Rattle.std.specs.List.{range_with_len};
ghost use Rattle.std.specs.Borrow.{sem};
ghost use Rattle.frame_pool.specs.Frames.{IsPool, IsTaken, frame_of, opened, overwritten, with_frame};
ghost use Rattle.frame_pool.specs.Lending.{LendsFrame};

use std::alloc::{AllocError, Global};
use std::marker::Model;

/// Memory was wanted and there was none.
#[derive(Clone, Copy, Debug, PartialEq, Eq)]
pub struct NoMemory;

/// A frame that was taken from a [`Pool`]. It can't be dropped, so whoever holds it has to give it
/// back to the pool.
#[derive(Debug)]
pub struct Frame {
    number: u32,
}

impl Model for Frame {
    ghost Value = { ℕ };

    ghost view = { λ f. f.number };
}

impl Frame {
    /// The number of the frame in its pool, from 0.
    pub fn number(&self) -> u32
        ensures { result ≡ self.now }
    {
        self.number
    }
}

/// Frames of one size in one region of memory. Each is free or taken; the pool itself can't be
/// dropped either, and is closed once all frames are back.
pub struct Pool {
    bytes: Vec<u8>,
    free: Vec<u32>,
    count: usize,
    size: usize,
}

impl Model for Pool {
    ghost use Rattle.std.specs.Prelude.{◌≡◌, ◌*◌, ◌≤◌, length};
    ghost use Rattle.std.specs.Vec.{vec_capacity};
    ghost use Rattle.frame_pool.specs.Frames.{PoolView};
    ghost use Rattle.frame_pool.specs.Region.{cut, IsSound};

    ghost Value = { PoolView };

    ghost view = { λ p. record { size = p.size; frames = cut p.size p.count p.bytes.items; free = p.free.items } };

    ghost invariant = { λ p. IsSound p.count p.size p.bytes.items p.free.items (vec_capacity p.free) };
}

impl Pool {
    /// A pool of `frames` frames of `size` bytes each, all free and zero; each number is 1 to 4,096.
    /// `NoMemory` only where memory is wanting. All memory that the pool ever needs is taken here.
    pub fn open(alloc: Global, frames: u32, size: u32) -> Result<Pool, NoMemory>
        requires frames { (1 ≤ frames) × (frames ≤ 4096) }
        requires size { (1 ≤ size) × (size ≤ 4096) }
        ensures opened { IfOk result (λ p. p ≡ opened frames size) }
        ensures sound { IfOk result IsPool }
    {
        let count = frames as usize;
        let size = size as usize;
        match parts(alloc, frames, count * size) {
            Ok((bytes, free)) => Ok(Pool {
                bytes,
                free,
                count,
                size,
            }),
            Err(_) => Err(NoMemory),
        }
    }

    /// Takes a free frame, the one that was given back last; `None` exactly where none is free.
    /// Its bytes are what they were. Takes no memory.
    pub fn take(&mut self) -> Option<Frame>
        ensures taken { MatchOption result ((self.old.free ≡ []) × (self.new ≡ self.old)) (λ f. self.old ≡ record self.new { free = self.new.free ++ f ∷ [] }) }
        ensures held { MatchOption result (self.new.free ≡ []) (λ f. IsTaken self.new f) }
        ensures was_free { IfSome result (λ f. ¬ (IsTaken self.old f)) }
        ensures others_held { (n : ℕ) → IsTaken self.old n → IsTaken self.new n }
        ensures sound { IsPool self.new }
    {
        let number = self.free.pop()?;
        Some(Frame { number })
    }

    /// Gives a taken frame back. It changes no bytes and takes no memory.
    pub fn give(&mut self, f: Frame)
        requires { IsTaken self.old f }
        ensures given { self.new ≡ record self.old { free = self.old.free ++ f ∷ [] } }
        ensures is_free { ¬ (IsTaken self.new f) }
        ensures others_held { (n : ℕ) → ¬ (n ≡ f) → IsTaken self.old n → IsTaken self.new n }
        ensures sound { IsPool self.new }
    {
        let Frame { number } = f;
        self.free.push_reserved(number);
    }

    /// The bytes of a taken frame.
    pub fn bytes(&self, f: &Frame) -> &[u8]
        requires { IsTaken self.now f.now }
        ensures value { result.now ≡ frame_of self.now f.now }
        ensures len { length result.now ≡ self.now.size }
    {
        let from = f.number() as usize * self.size;
        &self.bytes[from..from + self.size]
    }

    /// The bytes of a taken frame, to be written. A write changes no other frame's bytes.
    pub fn bytes_mut(&mut self, f: &Frame) -> &mut [u8]
        requires { IsTaken self.old f.now }
        ensures* writes_back { sem 𝓛 (LendsFrame self.entry f.now result) }
        ensures value { result.now ≡ frame_of self.old f.now }
        ensures len { length result.now ≡ self.old.size }
        ensures sound { IsPool self.old }
    {
        let from = f.number() as usize * self.size;
        let to = from + self.size;
        self.bytes.slice_mut(from..to)
    }

    /// Copies the bytes of one taken frame into another; the others stay. Takes no memory.
    pub fn copy(&mut self, from: &Frame, to: &Frame)
        requires from { IsTaken self.old from.now }
        requires to { IsTaken self.old to.now }
        ensures copied { self.new ≡ with_frame self.old to.now (frame_of self.old from.now) }
        ensures sound { IsPool self.new }
    {
        let source = from.number() as usize * self.size;
        let target = to.number() as usize * self.size;
        self.bytes.copy_within(source..source + self.size, target);
    }

    /// Writes a piece over a part of a taken frame, from `place` on; the rest of the frame and all
    /// other frames stay. Takes no memory.
    pub fn write(&mut self, f: &Frame, place: usize, piece: &[u8])
        requires taken { IsTaken self.old f.now }
        requires inside { place + length piece.now ≤ self.old.size }
        ensures written { self.new ≡ with_frame self.old f.now (overwritten (frame_of self.old f.now) place piece.now) }
        ensures sound { IsPool self.new }
    {
        let frame = self.bytes_mut(f);
        frame[place..place + piece.len()].copy_from_slice(piece);
    }

    /// How many bytes each frame has.
    pub fn size(&self) -> usize
        ensures { result ≡ self.now.size }
    {
        self.size
    }

    /// How many frames there are, free and taken.
    #[tactic(auto, using(crate::proofs::Cut::region_frames))]
    pub fn frames(&self) -> usize
        ensures { result ≡ length self.now.frames }
    {
        self.count
    }

    /// How many frames are free.
    pub fn free(&self) -> u32
        ensures free { result ≡ length self.now.free }
        ensures sound { IsPool self.now }
        ensures within { length self.now.free ≤ length self.now.frames }
    {
        self.free.len() as u32
    }

    /// Ends the pool and lets its memory go. All frames have to be back.
    pub fn close(self)
        requires { length self.free ≡ length self.frames }
    {
        let Pool {
            bytes: _bytes,
            free: _free,
            count: _count,
            size: _size,
        } = self;
    }
}

// The numbers of the frames.
fn numbers(alloc: Global, frames: u32) -> Result<Vec<u32>, AllocError>
    ensures { IfOk result (λ v. v.items ≡ range_with_len 0 frames) }
{
    (0..frames).collect(alloc)
}

// The zero bytes of the region, and the numbers of the frames.
fn parts(alloc: Global, frames: u32, bytes: usize) -> Result<(Vec<u8>, Vec<u32>), AllocError>
    ensures zero { IfOk result (λ r. r.0.items ≡ replicate bytes 0) }
    ensures numbers { IfOk result (λ r. r.1.items ≡ range_with_len 0 frames) }
{
    let region = vec![in alloc; 0; bytes]?;
    let numbers = numbers(alloc, frames)?;
    Ok((region, numbers))
}
