//! A disk that can fail, be stopped and crash.

ghost use Rattle.std.specs.Prelude.{◌≡◌, ◌⊎◌, ◌↔◌, ◌+◌, ◌^◌, ◌<◌, ◌≤◌, List, ℕ, length, take, drop, replicate, Option, Some, IsSome, IfOk, IfSome, OnOk, IsErrOf};
ghost use Rattle.std.specs.Option.{ForSome, option_map};
ghost use Rattle.voe_disk.specs.Disk.{overwritten, Torn, WhereTold, Follows, IsDurable, OneStep, HasCause, Arming, counted, Room, HasRoom, UsesAtMost};
ghost use Rattle.voe_disk.specs.Failing.{Failing, IsNumbered};

use crate::fail::DiskFail;
use voe_values::NoMemory;

/// A disk of bytes, read and written at places counted from 0. What is written reaches the disk for certain at the
/// next successful `sync`; a crash before it may leave the new bytes, the old ones or others in their place.
pub trait Disk {
    /// The bytes that a read gives, where the disk tells them.
    ghost reads: { Self → Option (List ℕ) };

    /// Whether the disk tells what a crash may leave. It is the same before and after each call.
    ghost tells_images: { Self → Type 0 };

    /// What a crash at this moment may leave, where the disk tells it.
    ghost may_leave: { Self → List ℕ → Type 0 };

    /// The second is a later state of the first, with no crash between the two.
    ghost is_since: { Self → Self → Type 0 };

    /// What a crash at some moment from the one state to the other may have left.
    ghost left_since: { Self → Self → List ℕ → Type 0 };

    /// What a crash leaves that puts this byte in place of each that is not on the disk, where the disk tells it.
    ghost crash_image: { Self → ℕ → Option (List ℕ) };

    /// After how many writes and syncs the disk stops, and the byte of the crash.
    ghost arming: { Self → Arming };

    /// What `reserve` has made room for.
    ghost room: { Self → Room };

    /// How often the disk has failed, at most 2^64 - 1.
    ghost faults: { Self → ℕ };

    /// Which calls fail, where the disk tells it.
    ghost failing: { Self → Option Failing };

    /// From the one state to the other nothing was called but `reserve`.
    ghost only_reserved: { Self → Self → Type 0 };

    /// The number of bytes.
    fn size(&mut self) -> Result<u64, DiskFail>
        ensures size { IfOk result (λ size. IfSome (reads self.old) (λ bytes. size ≡ length bytes)) }
        ensures reading { reads self.new ≡ reads self.old }
        ensures tells { tells_images self.new ↔ tells_images self.old }
        ensures images { (image : List ℕ) → may_leave self.new image ↔ may_leave self.old image }
        ensures exact_image { (fill : ℕ) → crash_image self.new fill ≡ crash_image self.old fill }
        ensures moments { OneStep is_since left_since may_leave self.old self.new }
        ensures stopped { (result ≡ Err DiskFail.Stopped) ↔ ((arming self.old).calls ≡ Some 0) }
        ensures unchanged { IsErrOf result DiskFail.Stopped → self.new ≡ self.old }
        ensures arming { arming self.new ≡ arming self.old }
        ensures numbered { IsNumbered (failing self.old) (failing self.new) result }
        ensures room { UsesAtMost 0 0 (room self.old) (room self.new) }
        ensures cause { HasCause (faults self.old) (faults self.new) result };

    /// Reads as many bytes as the buffer holds. After an `Err` the buffer may hold anything.
    fn read_at(&mut self, place: u64, buf: &mut [u8]) -> Result<(), DiskFail>
        requires { ForSome (reads self.old) (λ bytes. place + length buf.old ≤ length bytes) }
        ensures bytes { OnOk result (IfSome (reads self.old) (λ bytes. buf.new ≡ take (length buf.old) (drop place bytes))) }
        ensures reading { reads self.new ≡ reads self.old }
        ensures tells { tells_images self.new ↔ tells_images self.old }
        ensures images { (image : List ℕ) → may_leave self.new image ↔ may_leave self.old image }
        ensures exact_image { (fill : ℕ) → crash_image self.new fill ≡ crash_image self.old fill }
        ensures moments { OneStep is_since left_since may_leave self.old self.new }
        ensures stopped { (result ≡ Err DiskFail.Stopped) ↔ ((arming self.old).calls ≡ Some 0) }
        ensures unchanged { IsErrOf result DiskFail.Stopped → self.new ≡ self.old }
        ensures arming { arming self.new ≡ arming self.old }
        ensures numbered { IsNumbered (failing self.old) (failing self.new) result }
        ensures room { UsesAtMost 0 0 (room self.old) (room self.new) }
        ensures cause { HasCause (faults self.old) (faults self.new) result };

    /// Writes over what is there, and past the end. It takes no memory, since room was reserved. After a `Fault` the
    /// bytes of the range may hold anything.
    fn write_at(&mut self, place: u64, piece: &[u8]) -> Result<(), DiskFail>
        requires within { ForSome (reads self.old) (λ bytes. place ≤ length bytes) }
        requires end { place + length piece.now < 2 ^ 63 }
        requires room { HasRoom (place + length piece.now) 1 (length piece.now) (room self.old) }
        ensures written { OnOk result (reads self.new ≡ option_map (λ bytes. overwritten bytes place piece.now) (reads self.old)) }
        ensures reading { WhereTold (Torn place (length piece.now)) (reads self.old) (reads self.new) }
        ensures tells { tells_images self.new ↔ tells_images self.old }

        // A crash leaves what it might have left before, with any part of the write.
        ensures images { Follows (Torn place (length piece.now)) (may_leave self.old) (may_leave self.new) }
        ensures each_image { OnOk result ((from image : List ℕ) → may_leave self.old from → Torn place (length piece.now) from image → may_leave self.new image) }
        ensures images_stay { (image : List ℕ) → may_leave self.old image → may_leave self.new image }

        ensures exact_image { OnOk result ((fill : ℕ) → crash_image self.new fill
            ≡ option_map (λ image. overwritten image place (replicate (length piece.now) fill)) (crash_image self.old fill)) }
        ensures exact_told { (fill : ℕ) → IsSome (crash_image self.new fill) ↔ IsSome (crash_image self.old fill) }
        ensures moments { OneStep is_since left_since may_leave self.old self.new }
        ensures stopped { (result ≡ Err DiskFail.Stopped) ↔ ((arming self.old).calls ≡ Some 0) }
        ensures unchanged { IsErrOf result DiskFail.Stopped → self.new ≡ self.old }
        ensures arming { arming self.new ≡ counted (arming self.old) }
        ensures numbered { IsNumbered (failing self.old) (failing self.new) result }
        ensures room { UsesAtMost 1 (length piece.now) (room self.old) (room self.new) }
        ensures cause { HasCause (faults self.old) (faults self.new) result };

    /// Brings all that was written onto the disk. After `Ok` a crash leaves what a read gives.
    fn sync(&mut self) -> Result<(), DiskFail>
        requires { HasRoom 0 1 0 (room self.old) }
        ensures durable { OnOk result (IsDurable (reads self.new) (may_leave self.new)) }
        ensures exact_image { OnOk result ((fill : ℕ) → IfSome (crash_image self.old fill) (λ _. crash_image self.new fill ≡ reads self.new)) }
        ensures exact_told { (fill : ℕ) → IsSome (crash_image self.new fill) ↔ IsSome (crash_image self.old fill) }
        ensures reading { reads self.new ≡ reads self.old }
        ensures tells { tells_images self.new ↔ tells_images self.old }
        ensures images { (image : List ℕ) → may_leave self.new image → may_leave self.old image }
        ensures moments { OneStep is_since left_since may_leave self.old self.new }
        ensures stopped { (result ≡ Err DiskFail.Stopped) ↔ ((arming self.old).calls ≡ Some 0) }
        ensures unchanged { IsErrOf result DiskFail.Stopped → self.new ≡ self.old }
        ensures arming { arming self.new ≡ counted (arming self.old) }
        ensures numbered { IsNumbered (failing self.old) (failing self.new) result }
        ensures room { UsesAtMost 1 0 (room self.old) (room self.new) }
        ensures cause { HasCause (faults self.old) (faults self.new) result };

    /// Makes room for writes up to an end, for so many writes and syncs, and for so many bytes to be written. It is no
    /// call of the device: it has no number, never faults and never stops.
    fn reserve(&mut self, end: u64, calls: u64, bytes: u64) -> Result<(), NoMemory>
        ensures room { OnOk result (HasRoom end calls bytes (room self.new)) }
        ensures no_less { UsesAtMost 0 0 (room self.old) (room self.new) }
        ensures no_call { only_reserved self.old self.new }
        ensures reading { reads self.new ≡ reads self.old }
        ensures tells { tells_images self.new ↔ tells_images self.old }
        ensures images { (image : List ℕ) → may_leave self.new image ↔ may_leave self.old image }
        ensures exact_image { (fill : ℕ) → crash_image self.new fill ≡ crash_image self.old fill }
        ensures moments { OneStep is_since left_since may_leave self.old self.new }
        ensures arming { arming self.new ≡ arming self.old }
        ensures failing { failing self.new ≡ failing self.old }
        ensures faults { faults self.new ≡ faults self.old };

    /// How often a call of this disk has failed, at most 2^64 - 1.
    fn faults(&self) -> u64
        ensures { result ≡ faults self.now };

    /// Only a disk that tells its images has any.
    ghost images_told: { (disk : Self) (image : List ℕ) → may_leave disk image → tells_images disk };

    /// What is read is one of them.
    ghost reading_counts: { (disk : Self) (bytes : List ℕ) → tells_images disk → reads disk ≡ Some bytes → may_leave disk bytes };

    /// So is the image that is told exactly.
    ghost exact_counts: { (disk : Self) (fill : ℕ) (image : List ℕ) → crash_image disk fill ≡ Some image → may_leave disk image };

    ghost since_itself: { (disk : Self) → is_since disk disk };

    ghost since_earlier: { (first second third : Self) → is_since first second → is_since second third → is_since first third };

    /// A moment alone has the images of that moment.
    ghost one_moment: { (disk : Self) (image : List ℕ) → left_since disk disk image → may_leave disk image };

    /// The moments from one state to another are all counted, the first and the last among them.
    ghost first_counts: { (first last : Self) (image : List ℕ) → is_since first last → may_leave first image → left_since first last image };

    ghost last_counts: { (first last : Self) (image : List ℕ) → is_since first last → may_leave last image → left_since first last image };

    /// What lies between two states lies before or behind a state between them.
    ghost splits: { (first second third : Self) (image : List ℕ) → is_since first second → is_since second third
        → left_since first third image → left_since first second image ⊎ left_since second third image };

    ghost joins: { (first second third : Self) (image : List ℕ) → is_since first second → is_since second third
        → left_since first second image ⊎ left_since second third image → left_since first third image };

    ghost reserved_itself: { (disk : Self) → only_reserved disk disk };

    ghost reserved_again: { (first second third : Self) → only_reserved first second → only_reserved second third → only_reserved first third };
}
