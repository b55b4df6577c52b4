//! How a schedule is made: which thread goes on where one ends, and where another one comes between.

use std::alloc::{AllocError as NoMemory, Global};

/// The most plans that are followed.
pub(crate) const MOST_PLANS: usize = 4096;

/// The most orders of the threads in which each plan is followed.
const MOST_ORDERS: u32 = 24;

/// A place at which a thread may be switched: behind so many steps that others can see, the last one of this thread.
#[derive(Clone, Copy)]
pub(crate) struct Mark {
    pub(crate) behind: u32,
    pub(crate) thread: u32,
}

/// A switch: behind so many steps that others can see, to this thread.
#[derive(Clone, Copy)]
pub(crate) struct Switch {
    pub(crate) behind: u32,
    pub(crate) to: u32,
}

/// A plan. Where a thread can't go on, its order chooses one of those that can. At most two switches come between.
#[derive(Clone, Copy)]
pub(crate) struct Plan {
    pub(crate) order: u32,
    pub(crate) first: Option<Switch>,
    pub(crate) second: Option<Switch>,
}

/// The plan without switches.
pub(crate) fn in_order(order: u32) -> Plan {
    Plan {
        order,
        first: None,
        second: None,
    }
}

/// Whether a switch comes behind so many steps.
fn comes(switch: Option<Switch>, behind: u32) -> Option<u32> {
    match switch {
        Some(switch) => {
            if switch.behind == behind {
                Some(switch.to)
            } else {
                None
            }
        }
        None => None,
    }
}

impl Plan {
    /// The thread to which is switched behind so many steps.
    pub(crate) fn switched(&self, behind: u32) -> Option<u32> {
        if let Some(to) = comes(self.first, behind) {
            return Some(to);
        }
        comes(self.second, behind)
    }

    /// Whether it is the first one: no switch, and the first order.
    pub(crate) fn is_first(&self) -> bool {
        self.first.is_none() && self.order == 0
    }

    /// The plan with a switch more; none where it has two, or where it has one behind this place.
    fn with(&self, switch: Switch) -> Option<Plan> {
        if self.second.is_some() {
            return None;
        }
        let Some(first) = self.first else {
            return Some(Plan {
                order: self.order,
                first: Some(switch),
                second: None,
            });
        };
        if switch.behind <= first.behind {
            return None;
        }
        Some(Plan {
            order: self.order,
            first: Some(first),
            second: Some(switch),
        })
    }
}

/// Adds a plan, where there is room.
fn add(plans: &mut Vec<Plan>, plan: Plan) -> Result<(), NoMemory> {
    if plans.len() < MOST_PLANS {
        plans.push(plan)?;
    }
    Ok(())
}

/// Adds the plans without switches in all other orders, of which there are so many.
pub(crate) fn add_orders(plans: &mut Vec<Plan>, orders: u32) -> Result<(), NoMemory> {
    for order in 1..orders.min(MOST_ORDERS) {
        add(plans, in_order(order))?;
    }
    Ok(())
}

/// Adds the plans that switch at this mark, to each other thread.
fn add_at(plans: &mut Vec<Plan>, plan: &Plan, mark: Mark, threads: usize) -> Result<(), NoMemory> {
    let mut to = 0u32;
    for _ in 0..threads {
        let switch = Switch {
            behind: mark.behind,
            to,
        };
        if to != mark.thread {
            if let Some(next) = plan.with(switch) {
                add(plans, next)?;
            }
        }
        to = to.saturating_add(1);
    }
    Ok(())
}

/// Adds the plans with a switch more at one of these marks.
pub(crate) fn add_switches(
    plans: &mut Vec<Plan>,
    plan: &Plan,
    marks: &[Mark],
    threads: usize,
) -> Result<(), NoMemory> {
    for mark in marks {
        add_at(plans, plan, *mark, threads)?;
    }
    Ok(())
}

/// The plans at the beginning.
pub(crate) fn first_plans(alloc: Global) -> Result<Vec<Plan>, NoMemory> {
    let mut plans = Vec::new(alloc);
    plans.push(in_order(0))?;
    Ok(plans)
}

/// The plan at this place, where there is one.
pub(crate) fn plan_at(plans: &[Plan], place: usize) -> Option<Plan> {
    match plans.get(place) {
        Some(plan) => Some(*plan),
        None => None,
    }
}
