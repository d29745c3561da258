// What is true of all command files.
ghost use Rattle.std.specs.Prelude.{◌≡◌, ℕ, List};
ghost use Rattle.cmd_file.specs.CommandFile.{CommandFile, IsCommandFile};
ghost use Rattle.cmd_file.specs.Laws.{LoadedIsSame};
ghost use Rattle.cmd_file.specs.Reading.{IsCmdFaultOf};
ghost use Rattle.cmd_file.specs.Written.{written, MayBeWritten};
ghost use Rattle.cmd_file.specs.declared.fault.CmdFault.{CmdFault};

use asm86_line_types::cells_are_sorted;

/// A law: bytes are one command file at most, cannot go on at one place at most, and not both.
pub fn command_file_has_one_reading()
    ensures one_file { (bytes : List ℕ) (file other : CommandFile) → IsCommandFile bytes file → IsCommandFile bytes other → file ≡ other }
    ensures one_fault { (bytes : List ℕ) (j k : ℕ) → IsCmdFaultOf bytes (CmdFault.Bad j) → IsCmdFaultOf bytes (CmdFault.Bad k) → j ≡ k }
    ensures not_both { (bytes : List ℕ) (file : CommandFile) (k : ℕ) → IsCommandFile bytes file → IsCmdFaultOf bytes (CmdFault.Bad k) → ⊥ }
{}

/// A law: the bytes that are written of a file are that file.
pub fn written_reads_back()
    ensures { (file : CommandFile) → MayBeWritten file → IsCommandFile (written file) file }
{}

/// A law: what the command file of an image is loaded to means the same as a program, where the image does.
pub fn loaded_is_same()
    ensures { LoadedIsSame }
{
    cells_are_sorted();
}
