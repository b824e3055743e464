//! Performs lines of the program on a disk whose contents are known in full.

ghost use Rattle.std.specs.Prelude.{◌≡◌, ◌≢◌, ◌⊎◌, ℕ, List, Option, codes};
ghost use Rattle.clap.specs.Walk.{texts};
ghost use Rattle.clap.specs.Words.{subcommand_of};
ghost use Rattle.jt_machine.specs.declared.Used.{Used as RunUse};
ghost use Rattle.jt_args.specs.Line.{Asks, Takes, program_app};
ghost use Rattle.jt_program.specs.Commands.{Answers, Ending, out_of};
ghost use Rattle.jt_program.specs.Reports.{Explains, Prints, ReportsUsage};
ghost use Rattle.jt_disk.specs.Disk.{file_at, known_of};
ghost use Rattle.jt_disk.specs.Images.{IfCompiled, IfUpgraded};

use crate::disk::Disk;
use jt_machine::Sink;
use jt_program::perform;
use std::alloc::Global;

/// Performs the line `words` on a disk, and returns the status.
pub fn performed<W: Sink, E: Sink>(
    alloc: Global,
    words: &[&str],
    disk: &mut Disk,
    out: &mut W,
    errors: &mut E,
) -> u8
    // If the status is 0 and the line is one of `compile`, the disk holds the image.
    ensures compiled { result ≡ 0
        → IfCompiled disk.old disk.new (subcommand_of program_app (texts words.now)) }
    // If the status is 0 and the line is one of `upgrade`, the disk holds the image of IN in
    // version 2.
    ensures upgraded { result ≡ 0
        → IfUpgraded disk.old disk.new (subcommand_of program_app (texts words.now)) }
    // Whatever the status, every path other than OUT has the file that it had, or none as before.
    ensures others { (path : List ℕ)
        → path ≢ out_of (subcommand_of program_app (texts words.now))
        → file_at disk.new path ≡ file_at disk.old path }
    ensures kept { ¬ Asks (codes "compile") (texts words.now)
        → ¬ Asks (codes "upgrade") (texts words.now)
        → disk.new ≡ disk.old }
    // Unless the status is 2 or 6, it and both outputs report how the command of the line ended on
    // this disk.
    ensures ends { result ≢ 2
        → result ≢ 6
        → (e : Ending)
        × (used : Option RunUse)
        × Answers (known_of disk.old) (known_of disk.new)
        (subcommand_of program_app (texts words.now)) e used
        × Prints (W.taken out.old) (W.taken out.new) (W.failed out.new) e result
        × Explains (E.taken errors.old) (E.taken errors.new) (E.failed errors.new) e used result }
    // If the status is 2, standard error takes the usage, a text that is not empty.
    ensures told { result ≡ 2 → ReportsUsage (E.taken errors.old) (E.taken errors.new)
        (E.failed errors.new) }
    ensures usage { ¬ Takes (texts words.now) → (result ≡ 2) ⊎ (result ≡ 6) }
    ensures taken { Takes (texts words.now) → result ≢ 2 }
{
    perform(alloc, words, disk, out, errors)
}
