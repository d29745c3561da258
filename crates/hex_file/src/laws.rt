// What is true of all HEX files.
ghost use Rattle.std.specs.Prelude.{◌≡◌, ℕ, List};
ghost use Rattle.hex_file.specs.declared.fault.HexFault.{HexFault};
ghost use Rattle.hex_file.specs.HexFile.{IsHexOf, IsHexFaultOf};
ghost use Rattle.hex_file.specs.Written.{AreCells, IsWritten};

/// A law: bytes are a file with one list of cells at most, are refused at one line at most, and not both.
pub fn hex_file_has_one_reading()
    ensures one_list { (bytes : List ℕ) (cells others : List (ℕ × ℕ)) → IsHexOf bytes cells → IsHexOf bytes others → cells ≡ others }
    ensures one_fault { (bytes : List ℕ) (j k : ℕ) → IsHexFaultOf bytes (HexFault.Bad j) → IsHexFaultOf bytes (HexFault.Bad k) → j ≡ k }
    ensures not_both { (bytes : List ℕ) (cells : List (ℕ × ℕ)) (k : ℕ) → IsHexOf bytes cells → IsHexFaultOf bytes (HexFault.Bad k) → ⊥ }
{}

/// A law: one file is written of cells, and it is read as these cells where their addresses ascend.
pub fn written_reads_back()
    ensures one_file { (cells : List (ℕ × ℕ)) (bytes others : List ℕ) → IsWritten cells bytes → IsWritten cells others → bytes ≡ others }
    ensures reads_back { (cells : List (ℕ × ℕ)) (bytes : List ℕ) → AreCells cells → IsWritten cells bytes → IsHexOf bytes cells }
{}
