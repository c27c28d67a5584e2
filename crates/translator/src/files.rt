// A whole file, read in two passes: one that checks it over empty tables, and one that fills the caller's.
ghost use Rattle.std.specs.Prelude.{◌≡◌, ◌≤◌, length, IfOk};
ghost use Rattle.translator.specs.Filled.{VariablesFilled, RestFilled, FileFilled};
ghost use Rattle.translator.specs.Reads.{Finds};
ghost use Rattle.translator.specs.Readers.{place_of};
ghost use Rattle.translator.specs.Sections.{variables_section, rest_of_file, whole_file};
ghost use Rattle.translator.specs.Lines.{opening};
ghost use Rattle.translator.specs.Taken.{Taken};

use crate::cursor::Reader;
use crate::fields::Bounds;
use crate::sizes::Sizes;
use crate::stores::Room;
use sas::{Condition, Operator, Reading, Variable};
use task::{Fault, Kind, Layer};

impl<'a> Reader<'a> {
    // Their number, which is at most `room`, and then the variables: their sizes.
    pub(crate) fn variables(&mut self, room: usize, table: &mut [Variable]) -> Result<Sizes, Fault>
        ensures tells { Finds (λ vs n. VariablesFilled table.old n.all.items table.new vs) (variables_section room (place_of self.old)) result (place_of self.new) }
        ensures within { IfOk result (λ n. length n.all.items ≤ room) }
    {
        let count = self.number_line(Bounds {
            low: 1,
            high: room.min(60),
            below: Kind::BadNumber,
            above: Kind::OverLimit,
        })?;
        self.variable_list(count, table)
    }

    // What stands behind the start state: how many operators there are, how many conditions are in use,
    // and how many of them are the goal's.
    pub(crate) fn rest(
        &mut self,
        room: Room,
        unit: bool,
        sizes: &Sizes,
        operators: &mut [Operator],
        conditions: &mut [Condition],
    ) -> Result<(u32, usize, usize), Fault>
        ensures { Finds (λ s n. RestFilled room n.0 n.1 n.2 operators.old operators.new conditions.old conditions.new s) (rest_of_file room unit sizes.now.all.items (place_of self.old)) result (place_of self.new) }
    {
        let goal = self.goal(room.conditions, sizes, conditions)?;
        let count = self.number_line(Bounds::up_to(room.operators.min(4096), Kind::OverLimit))?;
        let used = self.operator_list(
            room.conditions,
            count,
            unit,
            sizes,
            operators,
            conditions,
            goal,
        )?;
        self.number_line(Bounds::up_to(0, Kind::NotCarried))?;
        self.file_end()?;
        Ok((count, used, goal))
    }

    // The whole file, if it is within the room: how much of it the file takes. Its records stand in the tables,
    // as far as these go.
    pub(crate) fn file(
        &mut self,
        room: Room,
        variables: &mut [Variable],
        operators: &mut [Operator],
        conditions: &mut [Condition],
    ) -> Result<Reading, Fault>
        ensures { Finds (λ d u. FileFilled room variables.old variables.new operators.old operators.new conditions.old conditions.new u d) (whole_file room (place_of self.old)) result (place_of self.new) }
    {
        self.version()?;
        let unit_cost = self.metric()?;
        let sizes = self.variables(room.variables, variables)?;
        self.mutexes(&sizes)?;
        let start = self.state(&sizes)?;
        let (actions, used, goal) = self.rest(room, unit_cost, &sizes, operators, conditions)?;
        Ok(Reading {
            variables: sizes.all.len() as u32,
            operators: actions,
            conditions: used,
            goal,
            start,
            unit_cost,
        })
    }
}

impl<'a> Reader<'a> {
    // A reader before the first line of a file.
    pub(crate) fn new(bytes: &'a [u8]) -> Reader<'a>
        requires { length bytes.now ≤ 65536 }
        ensures { place_of result ≡ opening bytes.now }
    {
        Reader {
            bytes,
            place: 0,
            next: 0,
            line: 0,
        }
    }
}

// Reads a translator file into the three tables: how much of them it takes. A file that is refused leaves
// the tables as they were. By hand: the three tables are lent one by one, a rule of the project.
pub fn read(
    bytes: &[u8],
    variables: &mut [Variable],
    operators: &mut [Operator],
    conditions: &mut [Condition],
) -> Result<Reading, Fault>
    ensures { Taken bytes.now variables.old variables.new operators.old operators.new conditions.old conditions.new result }
{
    if bytes.len() > 65_536 {
        return Err(Layer::Reading.fault(Kind::OverLimit, 0));
    }
    let room = Room {
        variables: variables.len(),
        operators: operators.len(),
        conditions: conditions.len(),
    };
    let mut checking = Reader::new(bytes);
    checking.file(room, &mut [], &mut [], &mut [])?;
    let mut filling = Reader::new(bytes);
    filling.file(room, variables, operators, conditions)
}
