//! What the parts of obligations' terms are worth. A call does nothing; what it ensures holds.

ghost use Rattle.ygg_oblige_laws.specs.Inputs.{FreshMeans, GluedMeans};
ghost use Rattle.ygg_oblige_laws.specs.States.{ComparingMeansSo, StatesMeanSo};
ghost use Rattle.ygg_oblige_laws.specs.Steps.{StepsMeanSo};

/// Fresh values of declared names are worth what the inputs give, and each environment of the declared shapes is given by some numbers.
pub fn fresh_values()
    ensures { FreshMeans }
{}

/// An environment that is glued together of parts gives each part its numbers, and fits the nodes where they do.
pub fn glued_environments()
    ensures { GluedMeans }
{}

/// Zeros are worth zeros, and comparisons are 1 just where what is compared is the same.
pub fn comparisons()
    ensures { ComparingMeansSo }
{}

/// The tests of a layer's relation and of its settled states are 1 just where these hold, and the states that its obligations begin with are worth
/// what the inputs give wherever the hypothesis is 1.
pub fn states()
    ensures { StatesMeanSo }
{}

/// The test of the specification's step is 1 where the obligation's conclusion holds for some list of picks, and 0 where it holds for none.
pub fn steps()
    ensures { StepsMeanSo }
{}
