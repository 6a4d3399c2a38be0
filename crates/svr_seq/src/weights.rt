// Choices by weight (IEEE 1800-2017, 18.16 and 18.17.1): a word modulo the sum of the weights falls in the weights of one, counted in the written order.

ghost use Rattle.std.specs.Prelude.{◌≡◌, ◌%◌, option_map};
ghost use Rattle.std.specs.Option.{option_copied};
ghost use Rattle.svr_draw.specs.Words.{word_of, after};
ghost use Rattle.svr_seq.specs.SeqTerm.{act_term, branch_terms, part_terms, rule_terms};
ghost use Rattle.svr_seq.specs.Sound.{rule_weights, branch_weights};
ghost use Rattle.svr_seq.specs.Line as spec;

use crate::tree::{Act, Branch, Part, Rule};
use svr_draw::Draws;

/// A word modulo the sum of weights.
fn modulo(word: u64, total: u128) -> u128
    ensures { result ≡ word % total }
{
    let word = u128::from(word);
    if total == 0 { word } else { word % total }
}

/// The sum of the weights of rules.
fn sum_of_rules(rules: &[Rule]) -> u128
    ensures { result ≡ rule_weights (rule_terms rules.now) }
{
    let mut sum = 0;
    for rule in rules {
        sum += u128::from(rule.weight);
    }
    sum
}

/// The sum of the weights of branches.
fn sum_of_branches(branches: &[Branch]) -> u128
    ensures { result ≡ branch_weights (branch_terms branches.now) }
{
    let mut sum = 0;
    for branch in branches {
        sum += u128::from(branch.weight);
    }
    sum
}

/// The parts of the rule in whose weights a number falls.
fn rule_at(rules: &[Rule], number: u128) -> &[Part]
    ensures { part_terms result.now ≡ spec.rule_at (rule_terms rules.now) number }
{
    let mut left = number;
    for rule in rules {
        let weight = u128::from(rule.weight);
        if left < weight {
            return rule.parts.as_slice();
        }
        left -= weight;
    }
    &[]
}

/// The statement of the branch in whose weights a number falls.
fn branch_at(branches: &[Branch], number: u128) -> Option<&Act>
    ensures { option_map act_term (option_copied result) ≡ spec.branch_at (branch_terms branches.now) number }
{
    let mut left = number;
    for branch in branches {
        let own = u128::from(branch.weight);
        if left < own {
            return Some(&branch.act);
        }
        left -= own;
    }
    None
}

/// Whether there are two or more rules.
fn has_choice(rules: &[Rule]) -> bool
    ensures { result ≡ spec.has_choice (rule_terms rules.now) }
{
    rules.len() > 1
}

/// The parts of the rule that is taken: of two or more the one that the next word chooses, and a single one without a word.
pub(crate) fn drawn_rule<'s>(rules: &'s [Rule], draws: &mut Draws) -> &'s [Part]
    ensures parts { part_terms result.now ≡ spec.rule_under (word_of draws.old 0) (rule_terms rules.now) }
    ensures words { draws.new ≡ after (spec.rule_words (rule_terms rules.now)) draws.old }
{
    if !has_choice(rules) {
        return rule_at(rules, 0);
    }
    let word = draws.word();
    rule_at(rules, modulo(word, sum_of_rules(rules)))
}

/// The statement of the branch that the next word chooses. Where all weights are 0 there is none, and no word is taken.
pub(crate) fn drawn_branch<'s>(branches: &'s [Branch], draws: &mut Draws) -> Option<&'s Act>
    ensures branch { option_map act_term (option_copied result) ≡ spec.branch_under (word_of draws.old 0) (branch_terms branches.now) }
    ensures words { draws.new ≡ after (spec.branch_words (branch_terms branches.now)) draws.old }
{
    let sum = sum_of_branches(branches);
    if sum == 0 {
        return None;
    }
    let word = draws.word();
    branch_at(branches, modulo(word, sum))
}
