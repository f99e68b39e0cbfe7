//! Rules of members: what a value must be, and what it then spells. Each rule is a small struct, so that a
//! reader of members is written once for all of them.
ghost use Rattle.std.specs.Prelude.{◌≡◌, IfOk, IsTrue, true};
ghost use Rattle.std.specs.Str.{is_utf8};
ghost use Rattle.serde_json.specs.Data.{Data};
ghost use Rattle.serde_json.specs.View.{view};
ghost use Rattle.json_bodies.specs.Answers.{KeepsBreach};
ghost use Rattle.json_bodies.specs.Rules.{text, truth, whole, id};

use crate::fault::{Breach, RuleFault};
use disk_trait::Text;
use media_rows::read_id;
use serde_json::Value;
use std::alloc::Global;

/// Bytes of the longest text, but for a description.
pub(crate) const LONGEST_TEXT: usize = 1_024;

/// Bytes of the longest description.
pub(crate) const LONGEST_DESCRIPTION: usize = 8_192;

/// The largest whole number.
pub(crate) const LAST_WHOLE: u64 = 9_223_372_036_854_775_807;

/// How the value of a member is read.
pub(crate) trait Rule<T> {
    ghost use Rattle.std.specs.Prelude.{Bool, Result};
    ghost use Rattle.json_bodies.specs.declared.fault.Breach.{Breach};

    /// What the rule gives of a value.
    ghost gives: { Self → Data → Result T Breach };

    /// What else is true of what it gives, as the library asks: its texts are UTF-8, its ranges bounded.
    ghost is_good: { Self → T → Bool };

    fn read(&self, alloc: Global, value: &Value) -> Result<T, RuleFault>
        ensures answer { KeepsBreach (gives self.now (view value.now)) result }
        ensures good { IfOk result (λ x. IsTrue (is_good self.now x)) };
}

/// A text of at most so many bytes.
#[derive(Drop)]
pub(crate) struct TextRule {
    pub(crate) most: usize,
}

impl Rule<Text> for TextRule {
    ghost gives = { λ rule. text rule.most };

    ghost is_good = { λ rule. is_utf8 };

    #[tactic(auto, using(crate::proofs::Texts::is_utf8_text))]
    fn read(&self, alloc: Global, value: &Value) -> Result<Text, RuleFault> {
        let Some(text) = value.as_str() else {
            return Err(RuleFault::Breach(Breach::WrongKind));
        };
        let bytes = text.as_bytes();
        if bytes.len() > self.most {
            return Err(RuleFault::Breach(Breach::TooLong));
        }
        Ok(Text::from_bytes(alloc, bytes)?)
    }
}

/// A truth value.
#[derive(Drop)]
pub(crate) struct TruthRule;

impl Rule<bool> for TruthRule {
    ghost gives = { λ _. truth };

    ghost is_good = { λ _ _. true };

    fn read(&self, _alloc: Global, value: &Value) -> Result<bool, RuleFault> {
        value.as_bool().ok_or(RuleFault::Breach(Breach::WrongKind))
    }
}

/// A whole number in a range.
#[derive(Drop)]
pub(crate) struct WholeRule {
    pub(crate) least: u64,
    pub(crate) most: u64,
}

impl Rule<u64> for WholeRule {
    ghost gives = { λ rule. whole rule.least rule.most };

    ghost is_good = { λ _ _. true };

    fn read(&self, _alloc: Global, value: &Value) -> Result<u64, RuleFault> {
        let Some(number) = value.as_number() else {
            return Err(RuleFault::Breach(Breach::WrongKind));
        };
        match number.as_u64() {
            Some(n) if self.least <= n && n <= self.most => Ok(n),
            _ => Err(RuleFault::Breach(Breach::OutOfRange)),
        }
    }
}

/// An id, in any of the forms of a UUID's text.
#[derive(Drop)]
pub(crate) struct IdRule;

impl Rule<u128> for IdRule {
    ghost gives = { λ _. id };

    ghost is_good = { λ _ _. true };

    fn read(&self, _alloc: Global, value: &Value) -> Result<u128, RuleFault> {
        value
            .as_str()
            .and_then(|text| read_id(text.as_bytes()))
            .ok_or(RuleFault::Breach(Breach::WrongKind))
    }
}
