// What is asked of a phase, and the records that an agent can begin as.
ghost use Rattle.std.specs.Prelude.{◌≡◌};
ghost use Rattle.records.specs.Agents.{peer_of, empty_agent, born_of, is_free, is_born, is_landed, is_child, is_moving};

use crate::{Agent, AgentNo, Phase, SiteNo};

impl Phase {
    // Tells whether an agent in this phase may begin something.
    pub fn is_free(self) -> bool
        ensures { result ≡ is_free self }
    {
        matches!(self, Phase::Free)
    }

    // Tells whether the server does not know of an agent in this phase.
    pub fn is_born(self) -> bool
        ensures { result ≡ is_born self }
    {
        matches!(self, Phase::Born(_))
    }

    // Tells whether an agent in this phase has left its site, and the server does not know of it.
    pub fn is_landed(self) -> bool
        ensures { result ≡ is_landed self }
    {
        matches!(self, Phase::Landed)
    }

    // Tells whether an agent in this phase is a child that its parent's creation still waits for.
    pub fn is_child(self) -> bool
        ensures { result ≡ is_child self }
    {
        matches!(self, Phase::Born(_) | Phase::Enrolled(_))
    }

    // Tells whether an agent in this phase is in a move that the lock is held for.
    pub fn is_moving(self) -> bool
        ensures { result ≡ is_moving self }
    {
        matches!(self, Phase::Granted(_) | Phase::Landed)
    }

    // Gives the agent that this phase names, a child or a parent, and agent 0 where it names none: the soundness test reads the named
    // agent before it knows whether there is one.
    pub fn peer(self) -> AgentNo
        ensures { result ≡ peer_of self }
    {
        match self {
            Phase::Spawning(peer) | Phase::Born(peer) | Phase::Enrolled(peer) => peer,
            _ => AgentNo(0),
        }
    }
}

// Makes the empty filling of the room for agents.
pub fn empty_agent() -> Agent
    ensures { result ≡ empty_agent }
{
    Agent {
        site: SiteNo(0),
        phase: Phase::Free,
        map: None,
    }
}

// An agent as it is born: at its parent's site, unmapped.
pub fn born_of(parent: AgentNo, site: SiteNo) -> Agent
    ensures { result ≡ born_of parent site }
{
    Agent {
        site,
        phase: Phase::Born(parent),
        map: None,
    }
}
