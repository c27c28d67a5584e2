// The variables of a file, and the values that they have at the start.
ghost use Rattle.std.specs.Prelude.{◌≡◌, ◌≤◌, [], length, IfOk};
ghost use Rattle.translator.specs.Filled.{VariablesFilled};
ghost use Rattle.sas.specs.States.{numbered};
ghost use Rattle.translator.specs.Reads.{Tells, Finds};
ghost use Rattle.translator.specs.Readers.{place_of};
ghost use Rattle.translator.specs.Sections.{repeated, variable_section, next_variable, most_values, start_line, state_section};

use crate::cursor::Reader;
use crate::fields::Bounds;
use crate::sizes::Sizes;
use crate::stores::store;
use arrayvec::ArrayVec;
use sas::Variable;
use task::{Fault, Kind};

// The product of the variables' sizes is at most this.
const WIDEST: u64 = 1_152_921_504_606_846_976;

impl<'a> Reader<'a> {
    // A variable behind others that span so much: how many values it has.
    pub(crate) fn variable(&mut self, span: u64) -> Result<u32, Fault>
        requires { 1 ≤ span }
        ensures tells { Finds (λ v n. v.size ≡ n) (variable_section span (place_of self.old)) result (place_of self.new) }
        ensures within { IfOk result (λ n. (1 ≤ n) × (n ≤ most_values span)) }
    {
        self.keyword(b"begin_variable")?;
        self.text_line()?;
        self.layer_line()?;
        let most = (WIDEST / span).min(1000) as usize;
        let size = self.number_line(Bounds {
            low: 1,
            high: most,
            below: Kind::BadNumber,
            above: Kind::OverLimit,
        })?;
        self.value_lines(size)?;
        self.keyword(b"end_variable")?;
        Ok(size)
    }

    // So many variables: their sizes. Their records stand first in the table.
    pub(crate) fn variable_list(
        &mut self,
        count: u32,
        table: &mut [Variable],
    ) -> Result<Sizes, Fault>
        requires some { 1 ≤ count }
        requires few { count ≤ 60 }
        ensures tells { Finds (λ vs n. VariablesFilled table.old n.all.items table.new vs) (repeated next_variable count [] (place_of self.old)) result (place_of self.new) }
        ensures long { IfOk result (λ n. length n.all.items ≡ count) }
    {
        let mut all = ArrayVec::new();
        let mut span: u64 = 1;
        for at in 0..count {
            let size = self.variable(span)?;
            all.push(size);
            store(table, at as usize, Variable { size });
            span *= u64::from(size);
        }
        Ok(Sizes { all })
    }

    // A value for each variable: the number of the state that has them.
    // By hand: the sum is made while the lines are read, so that no list of values is kept.
    pub(crate) fn start_values(&mut self, sizes: &Sizes) -> Result<u64, Fault>
        ensures { Finds (λ vs n. n ≡ numbered sizes.now.all.items vs) (repeated (start_line sizes.now.all.items) (length sizes.now.all.items) [] (place_of self.old)) result (place_of self.new) }
    {
        let all = sizes.all.as_slice();
        let mut number: u64 = 0;
        let mut weight: u64 = 1;
        for size in all {
            let value = self.number_line(Bounds::up_to((*size - 1) as usize, Kind::BadNumber))?;
            number += weight * u64::from(value);
            weight *= u64::from(*size);
        }
        Ok(number)
    }

    // The start state: its number.
    pub(crate) fn state(&mut self, sizes: &Sizes) -> Result<u64, Fault>
        ensures { Finds (λ vs n. n ≡ numbered sizes.now.all.items vs) (state_section sizes.now.all.items (place_of self.old)) result (place_of self.new) }
    {
        self.keyword(b"begin_state")?;
        let number = self.start_values(sizes)?;
        self.keyword(b"end_state")?;
        Ok(number)
    }
}
