// The sections behind the variables: mutex groups, the start state, the goal and the operators.
ghost use Rattle.std.specs.Prelude.{◌≡◌, ◌+◌, ◌-◌, ◌≤◌, false, [], length, IfOk};
ghost use Rattle.translator.specs.Filled.{GoalFilled, OperatorFilled, OperatorsFilled};
ghost use Rattle.translator.specs.Reads.{Tells, Finds};
ghost use Rattle.translator.specs.Readers.{place_of};
ghost use Rattle.translator.specs.Sections.{repeated, mutex_section, next_mutex, mutexes_section, goal_section, cost_line, operator_section, next_operator};

use crate::cursor::Reader;
use crate::fields::Bounds;
use crate::forms::Form;
use crate::seen::Seen;
use crate::sizes::Sizes;
use crate::stores::store;
use sas::{Condition, Operator};
use task::{Fault, Kind};

// No number of a file is greater.
const UNLIMITED: usize = u32::MAX as usize;

impl<'a> Reader<'a> {
    // A mutex group, which is checked and kept nowhere.
    pub(crate) fn mutex_group(&mut self, sizes: &Sizes) -> Result<(), Fault>
        ensures { Finds (λ g u. Unit {0}) (mutex_section sizes.now.all.items (place_of self.old)) result (place_of self.new) }
    {
        let mut seen = Seen::new(sizes);
        self.keyword(b"begin_mutex_group")?;
        self.condition_section(Form::Mutex, UNLIMITED, &mut seen, &mut [], 0)?;
        self.keyword(b"end_mutex_group")
    }

    // So many mutex groups.
    // By hand: a loop that is handed its step would have to say in its contract what each step leaves of the reader.
    pub(crate) fn mutex_list(&mut self, count: u32, sizes: &Sizes) -> Result<(), Fault>
        ensures { Finds (λ gs u. Unit {0}) (repeated (next_mutex sizes.now.all.items) count [] (place_of self.old)) result (place_of self.new) }
    {
        for _ in 0..count {
            self.mutex_group(sizes)?;
        }
        Ok(())
    }

    // Their number, and then the mutex groups.
    pub(crate) fn mutexes(&mut self, sizes: &Sizes) -> Result<(), Fault>
        ensures { Finds (λ gs u. Unit {0}) (mutexes_section sizes.now.all.items (place_of self.old)) result (place_of self.new) }
    {
        let count = self.number_line(Bounds::up_to(UNLIMITED, Kind::OverLimit))?;
        self.mutex_list(count, sizes)
    }

    // The goal, of at most `room` conditions: how many it has. Their records stand first in the table.
    pub(crate) fn goal(
        &mut self,
        room: usize,
        sizes: &Sizes,
        table: &mut [Condition],
    ) -> Result<usize, Fault>
        ensures tells { Finds (λ cs n. GoalFilled n table.old table.new cs) (goal_section sizes.now.all.items room (place_of self.old)) result (place_of self.new) }
        ensures within { IfOk result (λ n. n ≤ room) }
    {
        let mut seen = Seen::new(sizes);
        self.keyword(b"begin_goal")?;
        let count = self.condition_section(Form::Fact, room, &mut seen, table, 0)?;
        self.keyword(b"end_goal")?;
        Ok(count)
    }

    // The cost of an operator; 1 where every cost is read as 1.
    // By hand: whether every cost is read as 1 is a value of the file, from its metric line, so it stays a flag.
    pub(crate) fn cost(&mut self, unit: bool) -> Result<u32, Fault>
        ensures { Tells (λ v. v) (cost_line unit (place_of self.old)) result (place_of self.new) }
    {
        if unit {
            self.number_line(Bounds {
                low: 0,
                high: UNLIMITED,
                below: Kind::NotCarried,
                above: Kind::OverLimit,
            })?;
            return Ok(1);
        }
        self.number_line(Bounds {
            low: 1,
            high: 1_000_000,
            below: Kind::NotCarried,
            above: Kind::OverLimit,
        })
    }

    // An operator, whose conditions stand in the table from `first` on, and before `room`.
    pub(crate) fn operator(
        &mut self,
        room: usize,
        unit: bool,
        sizes: &Sizes,
        table: &mut [Condition],
        first: usize,
    ) -> Result<Operator, Fault>
        requires { first ≤ room }
        ensures tells { Finds (λ o v. OperatorFilled first table.old table.new v o) (operator_section unit sizes.now.all.items (room - first) (place_of self.old)) result (place_of self.new) }
        ensures within { IfOk result (λ v. first + v.count ≤ room) }
    {
        let mut seen = Seen::new(sizes);
        let left = room - first;
        self.keyword(b"begin_operator")?;
        let (name, name_length) = self.text_line()?;
        let prevail = self.condition_section(Form::Fact, left, &mut seen, table, first)?;
        let effects = self.condition_section(
            Form::Effect,
            left - prevail,
            &mut seen,
            table,
            first + prevail,
        )?;
        let cost = self.cost(unit)?;
        self.keyword(b"end_operator")?;
        Ok(Operator {
            name,
            name_length,
            first,
            count: prevail + effects,
            cost,
        })
    }

    // So many operators, whose conditions stand from `first` on, and before `room`: where those of the last end.
    pub(crate) fn operator_list(
        &mut self,
        room: usize,
        count: u32,
        unit: bool,
        sizes: &Sizes,
        operators: &mut [Operator],
        table: &mut [Condition],
        first: usize,
    ) -> Result<usize, Fault>
        requires { first ≤ room }
        ensures { Finds (λ os n. OperatorsFilled count first room operators.old operators.new table.old table.new n os) (repeated (next_operator unit sizes.now.all.items (room - first)) count [] (place_of self.old)) result (place_of self.new) }
    {
        let mut used = first;
        for at in 0..count {
            let operator = self.operator(room, unit, sizes, table, used)?;
            used += operator.count;
            store(operators, at as usize, operator);
        }
        Ok(used)
    }
}
