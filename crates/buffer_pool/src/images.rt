ghost use Rattle.std.specs.Prelude.{◌≡◌, ℕ, ◌+◌, ◌≤◌, ◌<◌, length, slice_set, IfOk, vec_len, vec_capacity};
ghost use Rattle.text_rules.specs.ChangedRanges.{put};
ghost use Rattle.frame_pool.specs.Frames.{IsPool};
ghost use Rattle.buffer_pool.specs.Images.{IsSized};
ghost use Rattle.buffer_pool.specs.Seen.{image_at};

use frame_pool::{Frame, Pool};
use pcl_base::NoMemory;
use std::alloc::Global;
use std::marker::Model;

/// The images of a buffer, by the number of the frame. All frames of the region are taken.
pub(crate) struct Images {
    pool: Pool,
    frames: Vec<Frame>,
}

impl Model for Images {
    ghost use Rattle.buffer_pool.specs.Images.{ImagesView, images_of, HasAll};

    ghost Value = { ImagesView };

    ghost view = { λ i. images_of i.pool i.frames.items };

    ghost invariant = { λ i. HasAll i.pool i.frames.items };
}

impl Images {
    /// Takes a region and all its frames.
    pub(crate) fn open(alloc: Global, frames: u32, size: u32) -> Result<Images, NoMemory>
        requires frames { (1 ≤ frames) × (frames ≤ 4096) }
        requires size { (1 ≤ size) × (size ≤ 4096) }
        ensures many { IfOk result (λ i. length i.images ≡ frames) }
        ensures size { IfOk result (λ i. i.size ≡ size) }
        ensures sized { IfOk result IsSized }
    {
        let list = Vec::with_capacity(alloc, frames as usize)?;
        match Pool::open(alloc, frames, size) {
            Ok(pool) => Ok(Images::take_all(pool, list)),
            Err(_) => {
                list.destroy_empty();
                Err(NoMemory)
            }
        }
    }

    // Takes each frame of a new pool.
    fn take_all(mut pool: Pool, mut frames: Vec<Frame>) -> Images
        requires sound { IsPool pool }
        requires all { length pool.free ≡ length pool.frames }
        requires none { vec_len frames ≡ 0 }
        requires room { length pool.frames ≤ vec_capacity frames }
        ensures many { length result.images ≡ length pool.frames }
        ensures size { result.size ≡ pool.size }
        ensures sized { IsSized result }
    {
        while let Some(frame) = pool.take() {
            frames.push_reserved(frame);
        }
        Images { pool, frames }
    }

    /// The image in a frame.
    pub(crate) fn bytes(&self, frame: u32) -> &[u8]
        requires { frame < length self.now.images }
        ensures value { result.now ≡ image_at self.now.images frame }
        ensures len { length result.now ≡ self.now.size }
    {
        self.pool.bytes(&self.frames[frame as usize])
    }

    /// Puts bytes over an image, from a place on.
    pub(crate) fn write(&mut self, frame: u32, place: usize, bytes: &[u8])
        requires frame { frame < length self.old.images }
        requires inside { place + length bytes.now ≤ self.old.size }
        ensures written { self.new ≡ record self.old { images = slice_set self.old.images frame (put place bytes.now (image_at self.old.images frame)) } }
        ensures sized { IsSized self.new }
    {
        self.pool.write(&self.frames[frame as usize], place, bytes);
    }

    /// Copies an image over another.
    pub(crate) fn copy(&mut self, from: u32, to: u32)
        requires from { from < length self.old.images }
        requires to { to < length self.old.images }
        ensures copied { self.new ≡ record self.old { images = slice_set self.old.images to (image_at self.old.images from) } }
        ensures sized { IsSized self.new }
    {
        self.pool
            .copy(&self.frames[from as usize], &self.frames[to as usize]);
    }

    /// Gives all frames back.
    pub(crate) fn close(self) {
        let Images {
            mut pool,
            mut frames,
        } = self;
        while let Some(frame) = frames.pop() {
            pool.give(frame);
        }
        frames.destroy_empty();
        pool.close();
    }
}
