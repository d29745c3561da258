// The blocks of a program, found in one pass.

ghost use Rattle.std.specs.Prelude.{◌≡◌, ◌+◌, ◌-◌, ◌<◌, ◌++◌, ◌∷◌, [], ◌||◌, ℕ, true, map, filter_map, if◌then◌else◌, All, IfOk, OnOk};
ghost use Rattle.base.specs.Addresses.{has_address, is_among};
ghost use Rattle.asm80_types.specs.Program.{Program};
ghost use Rattle.flow.specs.Blocks.{target_placed, blocks, leaders};
ghost use Rattle.flow.specs.Cut.{Marks, ends_before, closed, blocks_from, extents, EndsInMemory};

use asm80_types::{Placed, Program80};
use base::AddressSet;
use i80::{Goal, Instr80};
use std::alloc::{AllocError, Global};

/// The leaders, ascending, and for each the number of instructions of its block.
#[derive(Drop)]
pub struct Cut {
    pub leaders: Vec<u16>,
    pub counts: Vec<u32>,
}

// A block that is begun: its leader, and how many instructions it has so far.
#[derive(Clone, Copy)]
struct Begun {
    leader: u16,
    count: u32,
}

// The instruction that a jump or call goes to.
fn target_placed(placed: &Placed) -> Option<u16>
    ensures { result ≡ target_placed placed.now }
{
    match placed.instr {
        Instr80::Jmp(Goal::At(at))
        | Instr80::Jif(_, Goal::At(at))
        | Instr80::Call(Goal::At(at))
        | Instr80::Cif(_, Goal::At(at)) => Some(at),
        _ => None,
    }
}

// Adds the targets of jumps and calls.
fn mark_targets(set: &mut AddressSet, instrs: &[Placed])
    ensures { (a : ℕ) → has_address set.new a ≡ (has_address set.old a || is_among (filter_map target_placed instrs.now) a) }
{
    for placed in instrs {
        if let Some(at) = target_placed(placed) {
            set.insert(at);
        }
    }
}

// Adds addresses.
fn mark_all(set: &mut AddressSet, addresses: &[u16])
    ensures { (a : ℕ) → has_address set.new a ≡ (has_address set.old a || is_among addresses.now a) }
{
    for address in addresses {
        set.insert(*address);
    }
}

// The addresses that control comes to from elsewhere.
fn entered_of(alloc: Global, program: &Program80) -> Result<AddressSet, AllocError>
    ensures { IfOk result (λ set. Marks set program.now) }
{
    let mut set = AddressSet::new(alloc)?;
    mark_targets(&mut set, program.instrs());
    mark_all(&mut set, program.taken());
    Ok(set)
}

// Whether a block of so many instructions ends between two that follow each other in the program.
fn ends_before(entered: &AddressSet, count: u32, last: &Placed, next: &Placed) -> bool
    requires { EndsInMemory last.now }
    ensures value { (p : Program) → Marks entered.now p → result ≡ ends_before p count last.now next.now }
    ensures full { count ≡ 16 → result ≡ true }
{
    i80::ends(last.instr)
        || last.at + i80::length(last.instr) != next.at
        || entered.contains(next.at)
        || count == 16
}

impl Cut {
    // Adds a block.
    fn push(&mut self, block: Begun) -> Result<(), AllocError>
        ensures leaders { OnOk result (self.new.leaders.items ≡ self.old.leaders.items ++ block.leader ∷ []) }
        ensures counts { OnOk result (self.new.counts.items ≡ self.old.counts.items ++ block.count ∷ []) }
    {
        self.leaders.push(block.leader)?;
        self.counts.push(block.count)?;
        Ok(())
    }

    // Goes on to the instruction at an address: to the next of the block, or to the first of a new one, and then the block is added.
    fn go_on(&mut self, block: Begun, at: u16, is_new: bool) -> Result<Begun, AllocError>
        requires { block.count < 65536 }
        ensures leader { IfOk result (λ b. b.leader ≡ (if is_new then at else block.leader)) }
        ensures count { IfOk result (λ b. b.count ≡ (if is_new then 1 else block.count + 1)) }
        ensures leaders { OnOk result (self.new.leaders.items ≡ self.old.leaders.items ++ map (λ b. b.0) (closed is_new block.leader block.count)) }
        ensures counts { OnOk result (self.new.counts.items ≡ self.old.counts.items ++ map (λ b. b.1) (closed is_new block.leader block.count)) }
    {
        if is_new {
            self.push(block)?;
            Ok(Begun {
                leader: at,
                count: 1,
            })
        } else {
            Ok(Begun {
                leader: block.leader,
                count: block.count + 1,
            })
        }
    }

    // Adds the blocks of an instruction and those behind it.
    fn add_from(
        &mut self,
        entered: &AddressSet,
        first: &Placed,
        rest: &[Placed],
    ) -> Result<(), AllocError>
        requires first { EndsInMemory first.now }
        requires rest { All EndsInMemory rest.now }
        ensures leaders { (p : Program) → Marks entered.now p → OnOk result (self.new.leaders.items ≡ self.old.leaders.items ++ map (λ b. b.0) (blocks_from p first.now.at 1 first.now rest.now)) }
        ensures counts { (p : Program) → Marks entered.now p → OnOk result (self.new.counts.items ≡ self.old.counts.items ++ map (λ b. b.1) (blocks_from p first.now.at 1 first.now rest.now)) }
    {
        let mut last = *first;
        let mut block = Begun {
            leader: first.at,
            count: 1,
        };
        for placed in rest {
            let is_new = ends_before(entered, block.count, &last, placed);
            block = self.go_on(block, placed.at, is_new)?;
            last = *placed;
        }
        self.push(block)
    }

    // Adds the blocks of instructions.
    fn add_all(&mut self, entered: &AddressSet, instrs: &[Placed]) -> Result<(), AllocError>
        requires { All EndsInMemory instrs.now }
        ensures leaders { (p : Program) → Marks entered.now p → OnOk result (self.new.leaders.items ≡ self.old.leaders.items ++ map (λ b. b.0) (extents p instrs.now)) }
        ensures counts { (p : Program) → Marks entered.now p → OnOk result (self.new.counts.items ≡ self.old.counts.items ++ map (λ b. b.1) (extents p instrs.now)) }
    {
        match instrs.split_first() {
            Some((first, rest)) => self.add_from(entered, first, rest),
            None => Ok(()),
        }
    }
}

/// The blocks of a program.
pub fn cut_of(alloc: Global, program: &Program80) -> Result<Cut, AllocError>
    ensures leaders { IfOk result (λ c. c.leaders.items ≡ leaders program.now) }
    ensures counts { IfOk result (λ c. c.counts.items ≡ map (λ b. b.1) (blocks program.now)) }
{
    let entered = entered_of(alloc, program)?;
    let mut cut = Cut {
        leaders: Vec::new(alloc),
        counts: Vec::new(alloc),
    };
    cut.add_all(&entered, program.instrs())?;
    Ok(cut)
}
