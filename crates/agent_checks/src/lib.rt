// What the soundness test asks of one agent: by itself, with the agent that its phase names, and with the lock.
#![tactic(auto)]

ghost use Rattle.std.specs.Prelude.{◌≡◌, ◌&&◌};
ghost use Rattle.std.specs.Bool.{beq};
ghost use Rattle.records.specs.Agents.{is_moving, is_empty_agent};
ghost use Rattle.records.specs.Locks.{held_for_move};
ghost use Rattle.rules.specs.Tests.{agent_sites, family, map_right};

use records::agents::empty_agent;
use records::{Agent, AgentNo, Lock, Phase};

// The sites that an agent names.
fn agent_sites(sites: u32, one: Agent) -> bool
    ensures { result ≡ agent_sites sites one }
{
    let target_there = match one.phase {
        Phase::Asking(target) | Phase::Granted(target) => target.0 < sites,
        _ => true,
    };
    one.site.0 < sites && target_there && one.map.is_none_or(|entry| entry.0 < sites)
}

// A spawning agent names a child, and a child names a spawning agent: one that is there, names it back and stands at its site.
fn is_family(agents: u32, a: AgentNo, one: Agent, other: Agent) -> bool
    ensures { result ≡ family agents a one other }
{
    let together = other.site == one.site;
    match one.phase {
        Phase::Spawning(child) => {
            let back =
                matches!(other.phase, Phase::Born(parent) | Phase::Enrolled(parent) if parent == a);
            child.0 < agents && back && together
        }
        Phase::Born(parent) | Phase::Enrolled(parent) => {
            parent.0 < agents && other.phase == Phase::Spawning(a) && together
        }
        _ => true,
    }
}

// No map entry exactly where born, and the site as the entry unless landed.
fn map_right(one: Agent) -> bool
    ensures { result ≡ map_right one }
{
    match one.map {
        Some(entry) => { !one.phase.is_born() && (one.phase.is_landed() || entry == one.site) }
        None => one.phase.is_born(),
    }
}

// The lock is held for a move exactly while it is granted or landed.
fn moves_locked(lock: Lock, a: AgentNo, one: Agent) -> bool
    ensures { result ≡ beq (held_for_move lock a) (is_moving one.phase) }
{
    let held = lock == Lock::ForMove(a);
    held == one.phase.is_moving()
}

// Tells whether agent a, whose record is one, passes all that is asked of it; other is the record that its phase names.
pub fn agent_fine(sites: u32, agents: u32, lock: Lock, a: AgentNo, one: Agent, other: Agent) -> bool
    ensures { result ≡ (agent_sites sites one && (family agents a one other && (map_right one && beq (held_for_move lock a) (is_moving one.phase)))) }
{
    agent_sites(sites, one)
        && is_family(agents, a, one, other)
        && map_right(one)
        && moves_locked(lock, a, one)
}

// Tells whether one is the empty filling.
pub fn is_empty_agent(one: Agent) -> bool
    ensures { result ≡ is_empty_agent one }
{
    one == empty_agent()
}
