// Facts and effects: lines that name a variable and its values.
ghost use Rattle.std.specs.Prelude.{◌≡◌, ◌+◌, ◌^◌, ◌<◌, ◌≤◌, false, [], length, IfOk};
ghost use Rattle.translator.specs.Filled.{ConditionsFilled};
ghost use Rattle.translator.specs.Reads.{Tells, Finds};
ghost use Rattle.translator.specs.Readers.{place_of, noted_in};
ghost use Rattle.translator.specs.Sections.{known_variable, fresh_variable, next_value, next_before, fact_line, effect_line, condition_line, repeated, next_condition, conditions_section};

use crate::cursor::Reader;
use crate::fields::Bounds;
use crate::forms::Form;
use crate::seen::Seen;
use crate::sizes::Sizes;
use crate::stores::store;
use sas::Condition;
use task::{Fault, Kind};

impl<'a> Reader<'a> {
    // A variable of the file, by its number.
    pub(crate) fn known_variable(&mut self, sizes: &Sizes) -> Result<u32, Fault>
        ensures tells { Tells (λ v. v) (known_variable sizes.now.all.items (place_of self.old)) result (place_of self.new) }
        ensures within { IfOk result (λ v. v < length sizes.now.all.items) }
    {
        self.number_within(Bounds::up_to(sizes.all.len() - 1, Kind::BadNumber))
    }

    // One that has not been seen in this goal or operator.
    pub(crate) fn fresh_variable(&mut self, seen: &Seen<'_>) -> Result<u32, Fault>
        ensures tells { Tells (λ v. v) (fresh_variable (noted_in seen.now) (place_of self.old)) result (place_of self.new) }
        ensures within { IfOk result (λ v. v < length seen.now.sizes.now.all.items) }
    {
        let variable = self.known_variable(seen.sizes)?;
        if seen.marks[variable as usize] {
            return Err(self.fault(Kind::VariableTwice));
        }
        Ok(variable)
    }

    // A value of a variable of this size.
    pub(crate) fn next_value(&mut self, size: u32) -> Result<u32, Fault>
        ensures { Tells (λ v. v) (next_value size (place_of self.old)) result (place_of self.new) }
    {
        self.number_within(Bounds::up_to(size.saturating_sub(1) as usize, Kind::BadNumber))
    }

    // A value of a variable of this size, or -1 for any.
    pub(crate) fn next_before(&mut self, size: u32) -> Result<Option<u32>, Fault>
        ensures { Tells (λ v. v) (next_before size (place_of self.old)) result (place_of self.new) }
    {
        let before = self.next_signed()?;
        if before < 0 {
            return Ok(None);
        }
        if before >= i64::from(size) {
            return Err(self.fault(Kind::BadNumber));
        }
        Ok(Some(before as u32))
    }

    // A fact: a variable that has not been seen, and its value.
    pub(crate) fn fact_line(&mut self, seen: &Seen<'_>) -> Result<Condition, Fault>
        ensures tells { Tells (λ v. v) (fact_line (noted_in seen.now) (place_of self.old)) result (place_of self.new) }
        ensures within { IfOk result (λ c. c.variable < length seen.now.sizes.now.all.items) }
    {
        self.next_line()?;
        let variable = self.fresh_variable(seen)?;
        let value = self.next_value(seen.sizes.all[variable as usize])?;
        self.line_end()?;
        Ok(Condition {
            variable,
            before: Some(value),
            after: None,
        })
    }

    // An effect: a variable that has not been seen, its value before and its value after.
    pub(crate) fn effect_line(&mut self, seen: &Seen<'_>) -> Result<Condition, Fault>
        ensures tells { Tells (λ v. v) (effect_line (noted_in seen.now) (place_of self.old)) result (place_of self.new) }
        ensures within { IfOk result (λ c. c.variable < length seen.now.sizes.now.all.items) }
    {
        self.next_line()?;
        self.number_within(Bounds::up_to(0, Kind::NotCarried))?;
        let variable = self.fresh_variable(seen)?;
        let size = seen.sizes.all[variable as usize];
        let before = self.next_before(size)?;
        let after = self.next_value(size)?;
        self.line_end()?;
        Ok(Condition {
            variable,
            before,
            after: Some(after),
        })
    }

    // A condition of this form. Its variable has then been seen, except in a mutex group, which may name it again.
    // By hand: the form is a value, for a closure or a type for each line would need the form in its contract too.
    pub(crate) fn condition_line(
        &mut self,
        form: Form,
        seen: &mut Seen<'_>,
    ) -> Result<Condition, Fault>
        ensures { Tells (λ v. (v, noted_in seen.new)) (condition_line form (noted_in seen.old) (place_of self.old)) result (place_of self.new) }
    {
        let condition = match form {
            Form::Mutex => return self.fact_line(seen),
            Form::Fact => self.fact_line(seen)?,
            Form::Effect => self.effect_line(seen)?,
        };
        seen.marks[condition.variable as usize] = true;
        Ok(condition)
    }

    // So many conditions of this form: their records stand in the table from `first` on.
    pub(crate) fn conditions(
        &mut self,
        form: Form,
        count: u32,
        seen: &mut Seen<'_>,
        table: &mut [Condition],
        first: usize,
    ) -> Result<(), Fault>
        requires { first + count < 2 ^ 64 }
        ensures { Finds (λ s u. ConditionsFilled first count table.old (noted_in seen.new) table.new s) (repeated (next_condition form) count ([], noted_in seen.old) (place_of self.old)) result (place_of self.new) }
    {
        for at in 0..count {
            let condition = self.condition_line(form, seen)?;
            store(table, first + at as usize, condition);
        }
        Ok(())
    }

    // Their number, which is at most `room`, and then the conditions.
    pub(crate) fn condition_section(
        &mut self,
        form: Form,
        room: usize,
        seen: &mut Seen<'_>,
        table: &mut [Condition],
        first: usize,
    ) -> Result<usize, Fault>
        requires { first + room < 2 ^ 64 }
        ensures tells { Finds (λ s n. ConditionsFilled first n table.old (noted_in seen.new) table.new s) (conditions_section form room (noted_in seen.old) (place_of self.old)) result (place_of self.new) }
        ensures within { IfOk result (λ n. n ≤ room) }
    {
        let count = self.number_line(Bounds::up_to(room, Kind::OverLimit))?;
        self.conditions(form, count, seen, table, first)?;
        Ok(count as usize)
    }
}
