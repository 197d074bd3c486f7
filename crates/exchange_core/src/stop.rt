//! Why a line isn't carried out.

ghost use Rattle.std.specs.Prelude.{◌≡◌};
ghost use Rattle.exchange_core.specs.Stops.{fast_stop, bind_stop, isolate_stop, route_stop, rules_stop, syntax_stop, update_stop};
ghost use Rattle.exchange_core.specs.declared.stop.Stop.TheVariants as stops;

use bgp_update::UpdateFault;
use events::Refusal;
use export_rules::{BindFault, RulesFault};
use fast_path::FastFault;
use net_types::{IsolateFault, Memory};
use policy_syntax::SyntaxFault;
use route_server::RouteFault;
use std::alloc::{AllocError, AllocFailed};

/// Why a line isn't carried out.
#[derive(Clone, Copy, Debug, PartialEq, Eq)]
pub enum Stop {
    /// It is refused.
    Refused(Refusal),
    /// Memory ran out.
    Memory,
}

impl From<Refusal> for Stop {
    ghost from_gives = { λ refusal e. e ≡ stops.Refused refusal };

    fn from(refusal: Refusal) -> Stop
        ensures { result ≡ stops.Refused refusal }
    {
        Stop::Refused(refusal)
    }
}

impl From<Memory> for Stop {
    ghost from_gives = { λ _ e. e ≡ stops.Memory };

    fn from(_: Memory) -> Stop {
        Stop::Memory
    }
}

impl From<AllocError> for Stop {
    ghost from_gives = { λ _ e. e ≡ stops.Memory };

    fn from(_: AllocError) -> Stop {
        Stop::Memory
    }
}

impl<T: Drop> From<AllocFailed<T>> for Stop {
    ghost from_gives = { λ _ e. e ≡ stops.Memory };

    fn from(_: AllocFailed<T>) -> Stop {
        Stop::Memory
    }
}

impl From<UpdateFault> for Stop {
    ghost from_gives = { λ fault e. e ≡ update_stop fault };

    fn from(fault: UpdateFault) -> Stop {
        match fault {
            UpdateFault::Bad(fault) => Stop::Refused(Refusal::BadUpdate(fault)),
            UpdateFault::Memory => Stop::Memory,
        }
    }
}

impl From<RouteFault> for Stop {
    ghost from_gives = { λ fault e. e ≡ route_stop fault };

    fn from(fault: RouteFault) -> Stop {
        match fault {
            RouteFault::FirstAs => Stop::Refused(Refusal::FirstAs),
            RouteFault::NextHop => Stop::Refused(Refusal::NextHop),
            RouteFault::Oversize => Stop::Refused(Refusal::Oversize),
            RouteFault::Memory => Stop::Memory,
        }
    }
}

impl From<RulesFault> for Stop {
    ghost from_gives = { λ fault e. e ≡ rules_stop fault };

    fn from(fault: RulesFault) -> Stop {
        match fault {
            RulesFault::TextLong => Stop::Refused(Refusal::TextLong),
            RulesFault::Syntax { at } => Stop::Refused(Refusal::Syntax { at }),
            RulesFault::Memory => Stop::Memory,
        }
    }
}

impl From<BindFault> for Stop {
    ghost from_gives = { λ fault e. e ≡ bind_stop fault };

    fn from(fault: BindFault) -> Stop {
        match fault {
            BindFault::UnknownName => Stop::Refused(Refusal::Unknown),
            BindFault::Memory => Stop::Memory,
        }
    }
}

impl From<SyntaxFault> for Stop {
    ghost from_gives = { λ fault e. e ≡ syntax_stop fault };

    fn from(fault: SyntaxFault) -> Stop {
        match fault {
            SyntaxFault::TextLong => Stop::Refused(Refusal::TextLong),
            SyntaxFault::Syntax { at } => Stop::Refused(Refusal::Syntax { at }),
            SyntaxFault::TooDeep { at } => Stop::Refused(Refusal::TooDeep { at }),
            SyntaxFault::Memory => Stop::Memory,
        }
    }
}

impl From<IsolateFault> for Stop {
    ghost from_gives = { λ fault e. e ≡ isolate_stop fault };

    fn from(fault: IsolateFault) -> Stop {
        Stop::Refused(Refusal::Isolate {
            kind: fault.kind,
            start: fault.span.start,
            end: fault.span.end,
        })
    }
}

impl From<FastFault> for Stop {
    ghost from_gives = { λ fault e. e ≡ fast_stop fault };

    fn from(fault: FastFault) -> Stop {
        match fault {
            FastFault::NoNextHop { need, free } => Stop::Refused(Refusal::NoNextHop { need, free }),
            FastFault::TableFull { rules, capacity } => Stop::Refused(Refusal::TableFull {
                rules,
                capacity,
            }),
            FastFault::Memory => Stop::Memory,
        }
    }
}
