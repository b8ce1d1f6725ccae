//! What everything means: the definitions are in `specs/`, the plain types that code shares with them in the modules here, and
//! each theorem about them is a clause of the function below.
#![tactic(auto)]

pub mod call;
pub mod item;
pub mod limits;
pub mod node;
pub mod outcome;
pub mod refusal;
pub mod relay;

ghost use Rattle.model.specs.Chosen.{PathsAreComputed};
ghost use Rattle.model.specs.Contact.{ContactIsComputed};
ghost use Rattle.model.specs.Examples.{ExamplesHold};
ghost use Rattle.model.specs.Execution.{ExecutionsAreChosen};
ghost use Rattle.model.specs.Fitness.{FitnessIsChecked};
ghost use Rattle.model.specs.Guarantee.{Guaranteed, NoPutIsRefused};
ghost use Rattle.model.specs.Hall.{HallsAreSites};
ghost use Rattle.model.specs.OpenList.{OpenListsKeepOrder};
ghost use Rattle.model.specs.PairSite.{PairSitesAreSites};
ghost use Rattle.model.specs.Relay.{ChainsReach};
ghost use Rattle.model.specs.Rules.{RulesKeepTheLaws};
ghost use Rattle.model.specs.Run.{RunsAreDetermined};
ghost use Rattle.model.specs.Window.{WindowsAreSites};

/// The theorems about the definitions. Nothing is computed here: the contract names each, so that the gate asks for its proof.
pub fn theorems()
    // Pair sites are sites, with exactly the listed pairs.
    ensures pair_sites_are_sites { PairSitesAreSites }

    // Halls are sites, with the moves and contacts of a grid.
    ensures halls_are_sites { HallsAreSites }

    // Windows over sites are sites.
    ensures windows_are_sites { WindowsAreSites }

    // Contact as it is computed is contact as it is defined.
    ensures contact_is_computed { ContactIsComputed }

    // Whoever is reached has a chain of contacts from the base.
    ensures chains_reach { ChainsReach }

    // The path that is computed is the chosen one.
    ensures paths_are_computed { PathsAreComputed }

    // Yield and Three-way are splitting rules.
    ensures rules_keep_the_laws { RulesKeepTheLaws }

    // An execution has every carrier's chosen path, its cost is the latest arrival, and its break the earliest.
    ensures executions_are_chosen { ExecutionsAreChosen }

    // An open list stays in order, and a put adds the one pair and nothing else.
    ensures open_lists_keep_order { OpenListsKeepOrder }

    // The checks of a task find nothing exactly where it is fit, and name the lowest carrier.
    ensures fitness_is_checked { FitnessIsChecked }

    // Every list of calls has one run, and runs join.
    ensures runs_are_determined { RunsAreDetermined }

    // Every run of calls that began new keeps the guarantee.
    ensures runs_keep_the_guarantee { Guaranteed }

    // Whatever is called of one that began fit, no put is refused.
    ensures no_put_is_refused { NoPutIsRefused }

    // The worked examples hold of the definitions.
    ensures examples_hold { ExamplesHold }
{}
