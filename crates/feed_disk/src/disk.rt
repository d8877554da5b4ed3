ghost use Rattle.std.specs.Prelude.{◌≡◌, ◌≢◌, ◌-◌, ◌≤◌, ◌++◌, List, ℕ, length, take, drop, min};
ghost use Rattle.std.specs.Prelude.{IfOk, OnOk, OnErr};
ghost use Rattle.feed_disk.specs.Disk.{DiskState, IsDisk, written, TornFrom, Passes, PassesBy, CountsCall};
ghost use Rattle.feed_disk.specs.Raised.{raised};

use crate::area::Area;
use atom_values::Failed;

/// A disk of three areas.
///
/// The device calls are `size`, `read`, `write` and `sync`. Each may fail, and the machine may crash before,
/// within or after each. `Failed` is returned only where the disk's count of faults rose in that call.
///
/// A crash leaves one of the images of its moment. Between two syncs of an area each byte of a written range
/// and each byte past the old end may be anything, and the size may be anything from the old to the new one.
/// All other bytes stay. This also holds within a write, and after a write or a sync that failed. After a
/// sync that worked, the only image is what a read gives. The areas are independent of one another.
///
/// Clauses on content hold where contracts see the disk's content, which `observable` says. Clauses on the clock,
/// the faults and the bytes read hold for each disk. Contracts see no content of a real disk, and it returns
/// fewer bytes than were asked for only at the area's end.
pub trait Disk {
    /// Whether contracts see the disk's content.
    ghost observable: { Type 0 };

    /// The disk as contracts see it.
    ghost state: { Self → DiskState };

    /// Returns the number of bytes of an area.
    fn size(&mut self, area: Area) -> Result<u64, Failed>
        ensures size { IfOk result (λ n. observable → n ≡ length ((state self.old).content area)) }
        ensures areas { (a : Area) → PassesBy (state self.old) (state self.new) a }
        ensures counts { CountsCall (state self.old) (state self.new) result }
        ensures read { (state self.new).bytes_read ≡ (state self.old).bytes_read };

    /// Reads the bytes from offset `at` on into the start of `into`, and returns their number: the length of
    /// `into`, or that of the rest of the area if this is smaller.
    fn read(&mut self, area: Area, at: u64, into: &mut [u8]) -> Result<usize, Failed>
        requires { observable → at ≤ length ((state self.old).content area) }
        ensures most { IfOk result (λ n. n ≤ length into.old) }
        ensures bytes { IfOk result (λ n. observable
            → (n ≡ min (length into.old) (length ((state self.old).content area) - at))
            × (into.new ≡ take n (drop at ((state self.old).content area)) ++ drop n into.old)) }
        ensures areas { (a : Area) → PassesBy (state self.old) (state self.new) a }
        ensures counts { CountsCall (state self.old) (state self.new) result }
        ensures read { IfOk result (λ n. (state self.new).bytes_read ≡ raised (state self.old).bytes_read n) }
        ensures unread { OnErr result ((state self.new).bytes_read ≡ (state self.old).bytes_read) };

    /// Writes the bytes of `from` over those from offset `at` on, and past the end.
    fn write(&mut self, area: Area, at: u64, from: &[u8]) -> Result<(), Failed>
        requires { observable → at ≤ length ((state self.old).content area) }
        ensures written { OnOk result (observable
            → (state self.new).content area ≡ written ((state self.old).content area) at from.now) }
        ensures area { Passes (state self.old) (state self.new) area
            (TornFrom at (length from.now) ((state self.old).image_now area)) }
        // No byte of the range is certain until a sync.
        ensures torn { OnOk result (observable → (i : List ℕ)
            → TornFrom at (length from.now) ((state self.old).image_now area) i
            → (state self.new).image_now area i) }
        ensures others { (a : Area) → a ≢ area → PassesBy (state self.old) (state self.new) a }
        ensures counts { CountsCall (state self.old) (state self.new) result }
        ensures read { (state self.new).bytes_read ≡ (state self.old).bytes_read };

    /// Syncs an area: after `Ok` a crash leaves what a read gives.
    fn sync(&mut self, area: Area) -> Result<(), Failed>
        ensures content { OnOk result (observable → (state self.new).content area ≡ (state self.old).content area) }
        ensures certain { OnOk result (observable → (i : List ℕ)
            → (state self.new).image_now area i → i ≡ (state self.new).content area) }
        ensures area { Passes (state self.old) (state self.new) area ((state self.old).image_now area) }
        ensures others { (a : Area) → a ≢ area → PassesBy (state self.old) (state self.new) a }
        ensures counts { CountsCall (state self.old) (state self.new) result }
        ensures read { (state self.new).bytes_read ≡ (state self.old).bytes_read };

    /// Returns the number of device calls made, which stays at the greatest u64. This is no device call.
    fn calls(&self) -> u64
        ensures { result ≡ (state self.now).clock };

    /// The law of every disk.
    ghost is_disk: { (d : Self) → IsDisk observable (state d) };
}
