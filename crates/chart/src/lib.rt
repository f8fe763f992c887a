// The chart of a parallel multiple context-free grammar, and the theorems that join it to the trees of the grammar.
// Each function's contract is one theorem; the functions do nothing.
#![tactic(auto)]

ghost use Rattle.chart.specs.Chart.{Fact};
ghost use Rattle.chart.specs.Theorems.{Faultless, Next, Verdict, Least, Contains, Growth, Opening, OneNumber, Starts, Sum, Round, RulesListed, Height, CategoryHeight, WrittenOnce, WrittenOrNot, WrittenRead};
ghost use Rattle.chart.specs.Samples.{SamplesSound};
ghost use Rattle.chart.specs.SampleChart.{SampleChart};

use algebra::Algebra;

// A grammar that the check before opening accepts is sound for the chart.
pub fn accepted_is_sound()
    ensures { Faultless }
{}

// The next tokens are those of the chart's frontier.
pub fn next_is_frontier()
    ensures { Next }
{}

// The tokens are complete when the chart has the start phrase read as the whole of them.
pub fn verdict_is_made()
    ensures { Verdict }
{}

// The chart is the least set of facts that is closed under the steps.
pub fn chart_is_least()
    ensures { Least }
{}

// Any set of facts.
pub trait FactSet {
    ghost holds: { Self → Fact → Type 0 };
}

// Any set of facts that is closed under the steps contains the chart.
pub fn chart_is_within<S: FactSet>(set: &S)
    ensures { Contains (S.FactSet.holds set.now) }
{}

// One more token keeps the chart, and what is new ends there.
pub fn chart_grows()
    ensures { Growth }
{}

// One more token opens scans at the end and copies up to it, and no other step.
pub fn steps_open()
    ensures { Opening }
{}

// The cells in use are one number, and so is the bound on heights.
pub fn counts_are_one()
    ensures { OneNumber }
{}

// Where one rule of a phrase starts, all do.
pub fn rules_start()
    ensures { Starts }
{}

// The sample grammars are sound.
pub fn samples_are_sound()
    ensures { SamplesSound }
{}

// In every algebra, what the start phrase is worth after h rounds is the sum over the start trees of height at most h.
pub fn value_is_sum<A: Algebra>()
    ensures { Sum A.nought A.plus A.times }
{}

// In every algebra a round may take the rules of a phrase in any order.
pub fn round_in_any_order<A: Algebra>()
    ensures { Round A.nought A.plus A.times }
{}

// The live places and the facts of the chart give its rules, each once.
pub fn rules_from_facts()
    ensures { RulesListed }
{}

// A complete list of tokens has a start tree no higher than the bound.
pub fn bound_is_enough()
    ensures { Height }
{}

// A category that has a tree has one no higher than the number of categories.
pub fn category_has_low_tree()
    ensures { CategoryHeight }
{}

// A list of numbers writes at most one tree.
pub fn written_once()
    ensures { WrittenOnce }
{}

// A list of numbers writes a start tree, or it writes none.
pub fn written_or_not()
    ensures { WrittenOrNot }
{}

// Reading the list from the right finds the start tree that it writes, and so its string.
pub fn written_is_read()
    ensures { WrittenRead }
{}

// The whole chart of one sample grammar at no tokens, with its counts.
pub fn sample_is_counted()
    ensures { SampleChart }
{}
