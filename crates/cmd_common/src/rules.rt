// The names of rules.
ghost use Rattle.std.specs.Prelude.{◌≡◌};
ghost use Rattle.cmd_common.specs.Lines.{asm_rule, line_rule, profile_rule, text_rule};

use asm80_source_def::AsmRule;
use asm80_types::LineRule;
use asm86_line_types::TextRule;
use cells::Rule;

/// A rule of the source's lines.
pub fn line_rule(rule: LineRule) -> &'static str
    ensures { result.now ≡ line_rule rule }
{
    match rule {
        LineRule::L1 => "L1",
        LineRule::L2 => "L2",
        LineRule::L3 => "L3",
        LineRule::L4 => "L4",
        LineRule::L5 => "L5",
        LineRule::L6 => "L6",
        LineRule::L7 => "L7",
        LineRule::L8 => "L8",
    }
}

/// A rule of the source's names, values and layout.
pub fn asm_rule(rule: AsmRule) -> &'static str
    ensures { result.now ≡ asm_rule rule }
{
    match rule {
        AsmRule::V1 => "V1",
        AsmRule::V2 => "V2",
        AsmRule::V3 => "V3",
        AsmRule::V4 => "V4",
        AsmRule::V5 => "V5",
        AsmRule::V6 => "V6",
        AsmRule::V7 => "V7",
        AsmRule::S1 => "S1",
        AsmRule::S2 => "S2",
        AsmRule::S3 => "S3",
        AsmRule::S4 => "S4",
        AsmRule::S5 => "S5",
        AsmRule::S6 => "S6",
        AsmRule::S7 => "S7",
    }
}

/// A rule of the 8086 text.
pub fn text_rule(rule: TextRule) -> &'static str
    ensures { result.now ≡ text_rule rule }
{
    match rule {
        TextRule::M1 => "M1",
        TextRule::M2 => "M2",
        TextRule::M3 => "M3",
        TextRule::M4 => "M4",
        TextRule::M5 => "M5",
        TextRule::M6 => "M6",
    }
}

/// A rule of the profile.
pub fn profile_rule(rule: Rule) -> &'static str
    ensures { result.now ≡ profile_rule rule }
{
    match rule {
        Rule::P1 => "P1",
        Rule::P2 => "P2",
        Rule::P3 => "P3",
        Rule::P4 => "P4",
        Rule::P5 => "P5",
        Rule::P6 => "P6",
        Rule::P7 => "P7",
        Rule::P8 => "P8",
        Rule::P9 => "P9",
        Rule::P10 => "P10",
        Rule::P11 => "P11",
        Rule::P12 => "P12",
    }
}
