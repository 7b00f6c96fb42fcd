// What is read of a pattern so far: tests, nevers and steps, each put at the end when it is whole.
ghost use Rattle.std.specs.Prelude.{◌≡◌, ◌+◌, ◌*◌, ◌≤◌, [], ◌++◌, length};
ghost use Rattle.std.specs.List.{flat_map};
ghost use Rattle.arrayvec.specs.ArrayVec.{array_vec_len};
ghost use Rattle.syntax.specs.Reading.{Built, with_never, with_step, with_act};
ghost use Rattle.syntax.specs.Drafts.{Drawn, Roomy};

use crate::moves::Act;
use arrayvec::ArrayVec;
use patterns::Comparison;
use patterns::layout::{NEVER_WORDS, TEST_WORDS};

// More numbers than a pattern has.
const ROOM: usize = 512;

// More tests, nevers and names than there may be.
const PARTS: usize = 8;

// Numbers of a pattern's row.
pub type Row = ArrayVec<u64, ROOM>;

#[derive(Drop)]
pub struct Draft {
    // The numbers of the steps that are whole, and their letters.
    pub steps: Row,
    pub names: ArrayVec<u8, PARTS>,
    // The numbers of each never that is whole, of the step to come.
    pub nevers: ArrayVec<ArrayVec<u64, NEVER_WORDS>, PARTS>,
    // The numbers of each test that is whole, of the step or never that is under way.
    pub tests: ArrayVec<[u64; TEST_WORDS], PARTS>,
}

// Numbers put at the end of a row that has room for them.
pub fn put<const N: usize>(row: &mut ArrayVec<u64, N>, numbers: &[u64])
    requires { array_vec_len row.old + length numbers.now ≤ N }
    ensures { row.new.items ≡ row.old.items ++ numbers.now }
{
    row.try_extend_from_slice(numbers).unwrap()
}

// The numbers of nevers, put at the end of a row that has room for them.
fn put_nevers(row: &mut Row, nevers: &[ArrayVec<u64, NEVER_WORDS>])
    requires { array_vec_len row.old + 22 * length nevers.now ≤ 512 }
    ensures { row.new.items ≡ row.old.items ++ flat_map (λ v. v.items) nevers.now }
{
    for never in nevers {
        put(row, never.as_slice());
    }
}

impl Draft {
    pub fn new() -> Draft
        ensures { Drawn result (record { steps = []; names = []; nevers = []; tests = [] }) }
    {
        Draft {
            steps: ArrayVec::new(),
            names: ArrayVec::new(),
            nevers: ArrayVec::new(),
            tests: ArrayVec::new(),
        }
    }

    // No field of a draft says that there is room: a third never would break it, and none comes by where the reader stands.
    fn add_test(&mut self, test: Comparison)
        requires { Roomy self.old }
        ensures { (w : Built) → Drawn self.old w → Drawn self.new (with_act w (Act.Test test)) }
    {
        self.tests.push(<[u64; TEST_WORDS]>::from(test));
    }

    fn end_never(&mut self, kind: u64)
        requires { Roomy self.old }
        ensures { (w : Built) → Drawn self.old w → Drawn self.new (with_never w kind) }
    {
        let mut never = ArrayVec::new();
        put(&mut never, &[kind, self.tests.len() as u64]);
        put(&mut never, self.tests.as_slice().as_flattened());
        self.nevers.push(never);
        self.tests.clear();
    }

    fn end_step(&mut self, kind: u64, name: u8)
        requires { Roomy self.old }
        ensures { (w : Built) → Drawn self.old w → Drawn self.new (with_step w kind name) }
    {
        put(&mut self.steps, &[kind, self.tests.len() as u64]);
        put(&mut self.steps, self.tests.as_slice().as_flattened());
        put(&mut self.steps, &[self.nevers.len() as u64]);
        put_nevers(&mut self.steps, self.nevers.as_slice());
        self.names.push(name);
        self.nevers.clear();
        self.tests.clear();
    }

    pub fn take(&mut self, act: Act)
        requires { Roomy self.old }
        ensures { (w : Built) → Drawn self.old w → Drawn self.new (with_act w act) }
    {
        match act {
            Act::Nothing => {}
            Act::Test(test) => self.add_test(test),
            Act::EndStep(kind, name) => self.end_step(kind, name),
            Act::EndNever(kind) => self.end_never(kind),
        }
    }
}
