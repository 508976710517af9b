// How a planning ended, by how its search did, and what that says.
ghost use Rattle.std.specs.Prelude.{◌≡◌};
ghost use Rattle.book.specs.Books.{outcome_of, cost_in, runs_of};

use crate::Outcome;
use limit_search::Found;

impl Outcome {
    /// What the plan in force costs, if there is one.
    pub fn cost(&self) -> Option<u32>
        ensures { result ≡ cost_in self.now }
    {
        match self {
            Outcome::Planned { cost, .. } => Some(*cost),
            Outcome::None | Outcome::Short { .. } => None,
        }
    }

    /// How many runs the planning took; 0 where there is no outcome.
    pub fn runs(&self) -> usize
        ensures { result ≡ runs_of self.now }
    {
        match self {
            Outcome::None => 0,
            Outcome::Planned { runs, .. } | Outcome::Short { runs, .. } => *runs,
        }
    }
}

impl From<Found> for Outcome {
    ghost from_gives = { λ f o. o ≡ outcome_of f };

    fn from(found: Found) -> Outcome {
        match found {
            Found::Planned { cost, runs } => Outcome::Planned { cost, runs },
            Found::Short { cut, runs, .. } => Outcome::Short { runs, cut },
        }
    }
}
