// The rules that a source's statements may break.

/// A rule of names and values (V), or of the layout and this project's profile (S).
#[derive(Clone, Copy, Debug, PartialEq, Eq)]
pub enum AsmRule {
    /// A name that is not defined, or not yet where that is needed.
    V1,
    /// A name defined twice, SET after SET excepted.
    V2,
    /// A value that is no byte where a byte is needed, as the address of an instruction, or an RST number above 7.
    V3,
    /// A divisor of `/` or `MOD` that is 0.
    V4,
    /// Operands of a number or kind that the operation lacks, or an EQU or SET without a label; among them `MOV M,M`, and a
    /// register's name where a value is needed.
    V5,
    /// ENDIF without IF, IF nested above 8, IF without ENDIF.
    V6,
    /// The 8,193rd name.
    V7,
    /// HLT, EI, DI, or RST 1 to 7.
    S1,
    /// A target of a jump or call is neither the start of an instruction nor 0 nor 5.
    S2,
    /// No instruction starts at 100H.
    S3,
    /// The address of an instruction in a larger expression that is a byte, a word but that of LXI SP, or a cell's address.
    S4,
    /// The address of an instruction as that of a cell, in LDA, STA, LHLD or SHLD.
    S5,
    /// A cell belongs to an earlier statement too.
    S6,
    /// A cell is below 100H, or not below the top of the program area less 2.
    S7,
}
