//! What holds of every frame's bytes.
ghost use Rattle.std.specs.Prelude.{◌≡◌, ◌<◌, ◌≤◌, ◌^◌, ◌++◌, ℕ, true, false, List, length, take, All, Ok, Err};
ghost use Rattle.stream_codec.specs.Frames.{frame_bytes, is_in_range, decoded};
ghost use Rattle.stream_codec.specs.declared.faults.DecodeFault.TheVariants.{Short};
ghost use Rattle.stream_codec.specs.declared.frames.Frame.{Frame};

/// The bytes of a frame, with any behind them, are read back as that frame and their number.
pub fn what_is_written_is_read_back()
    ensures { (f : Frame) (more : List ℕ) → is_in_range f ≡ true
        → decoded (frame_bytes f ++ more) ≡ Ok (f, length (frame_bytes f)) }
{}

/// Of a frame's bytes, every beginning that is not the whole is short.
pub fn a_proper_beginning_is_short()
    ensures { (f : Frame) (n : ℕ) → is_in_range f ≡ true → n < length (frame_bytes f)
        → decoded (take n (frame_bytes f)) ≡ Err Short }
{}

/// And bytes that are read as a frame begin with just its bytes: no other bytes are read as it. It is in range.
pub fn what_is_read_is_what_is_written()
    ensures bytes { (bs : List ℕ) (f : Frame) (n : ℕ) → All (λ b. b < 256) bs → decoded bs ≡ Ok (f, n)
        → take n bs ≡ frame_bytes f }
    ensures length { (bs : List ℕ) (f : Frame) (n : ℕ) → All (λ b. b < 256) bs → decoded bs ≡ Ok (f, n) → n ≤ length bs }
    ensures range { (bs : List ℕ) (f : Frame) (n : ℕ) → decoded bs ≡ Ok (f, n) → is_in_range f ≡ true }
{}
