//! A plan with what its actors are and which of them are linked.
ghost use Rattle.std.specs.Prelude.{◌≡◌, ◌≤◌, IfOk};
ghost use Rattle.dpc_lists.specs.Lists.{nth};
ghost use Rattle.dpc_model.specs.Actors.{role_of, are_linked};
ghost use Rattle.dpc_model.specs.declared.actors.Role.TheVariants.{Nobody};
ghost use Rattle.actor_roster.specs.Rosters.{links_of};

use actor_lists::lists::roles_of;
use dpc_lists::faults::NoMemory;
use dpc_model::actors::{Role, are_linked};
use dpc_model::plans::Plan;
use std::alloc::{AllocError, Global};
use std::marker::Model;

/// The most actors whose links are told, so that no plan can ask for a table without bound.
const MOST_LINKED: usize = 256;

/// A plan with a table of what its actors are, and one of which of them are linked: each question that
/// `dpc_model` answers by a walk over the plan is one look-up here. Contracts see the plan.
#[derive(Drop)]
pub struct Roster {
    plan: Plan,
    /// In order of the actors' numbers.
    roles: Vec<Role>,
    /// How many actors the links are told of: all of them, or none where they are too many.
    width: u64,
    /// Row by row, whether the row's actor is linked with each of them.
    links: Vec<bool>,
}

impl Model for Roster {
    ghost use Rattle.std.specs.Coded.{codes};
    ghost use Rattle.dpc_model.specs.FormulaCode.{coded_formula};
    ghost use Rattle.dpc_model.specs.declared.plans.Plan.{Plan};
    ghost use Rattle.actor_roster.specs.Rosters.{IsRoster};

    ghost Value = { Plan };

    ghost coded = { Prim.hlevel (codes, coded_formula) };

    ghost view = { λ r. r.plan };

    ghost invariant = { λ r. IsRoster r.plan r.roles.items r.width r.links.items };
}

/// How many of so many actors the links are told of.
fn width_of(actors: usize) -> u64
    ensures { result ≤ 256 }
{
    if actors <= MOST_LINKED {
        actors as u64
    } else {
        0
    }
}

/// The links among the first `width` actors, row by row.
fn links_of(alloc: Global, plan: &Plan, width: u64) -> Result<Vec<bool>, AllocError>
    requires { width ≤ 256 }
    ensures { IfOk result (λ links. links.items ≡ links_of plan.now width) }
{
    let mut links = Vec::with_capacity(alloc, (width * width) as usize)?;
    for place in 0..width * width {
        links.push(are_linked(plan, place / width, place % width))?;
    }
    Ok(links)
}

/// What the actor of that number is.
#[inline]
fn role_at(roles: &[Role], actor: u64) -> Role
    ensures { result ≡ nth Nobody roles.now actor }
{
    roles.get(actor as usize).copied().unwrap_or(Role::Nobody)
}

impl Roster {
    /// The tables of a plan.
    pub fn new(alloc: Global, plan: Plan) -> Result<Roster, NoMemory>
        ensures { IfOk result (λ r. r ≡ plan) }
    {
        let roles = roles_of(alloc, &plan)?;
        let width = width_of(roles.len());
        let links = links_of(alloc, &plan, width)?;
        Ok(Roster {
            plan,
            roles,
            width,
            links,
        })
    }

    /// The plan itself.
    #[inline]
    pub fn plan(&self) -> &Plan
        ensures { result.now ≡ self.now }
    {
        &self.plan
    }

    /// What the actor of that number is.
    #[inline]
    pub fn role_of(&self, actor: u64) -> Role
        ensures { result ≡ role_of self.now actor }
    {
        role_at(self.roles.as_slice(), actor)
    }

    /// Whether a link joins the actors of these numbers.
    #[inline]
    pub fn are_linked(&self, a: u64, b: u64) -> bool
        ensures { result ≡ are_linked self.now a b }
    {
        if a < self.width && b < self.width {
            if let Some(linked) = self.links.get((a * self.width + b) as usize) {
                return *linked;
            }
        }
        are_linked(&self.plan, a, b)
    }
}
