// A node of one of four kinds.
ghost use Rattle.std.specs.Prelude.{◌&&◌, ◌⊎◌};
ghost use Rattle.site_workers.specs.FourKinds as one;

use air_bus::{Input, Payload};
use outside::Gate;
use site_node::{Done, NodeFault, SiteNode};

/// A node of one of four kinds, so that nodes of several kinds stand in one list. It costs a test a call.
#[derive(Drop)]
pub enum OneOf<A, B, C, D> {
    First(A),
    Second(B),
    Third(C),
    Fourth(D),
}

impl<A: SiteNode, B: SiteNode, C: SiteNode, D: SiteNode> SiteNode for OneOf<A, B, C, D> {
    ghost tells = { (A.tells && B.tells) && (C.tells && D.tells) };

    ghost planned = { (A.planned && B.planned) && (C.planned && D.planned) };

    ghost State = { (A.State ⊎ B.State) ⊎ (C.State ⊎ D.State) };

    ghost leads = { one.leads (one.leads A.leads B.leads) (one.leads C.leads D.leads) };

    ghost phase_of = { one.of (one.of A.phase_of B.phase_of) (one.of C.phase_of D.phase_of) };

    ghost wants_as = { one.says (one.says A.wants_as B.wants_as) (one.says C.wants_as D.wants_as) };

    ghost unfinished_as = { one.says (one.says A.unfinished_as B.unfinished_as) (one.says C.unfinished_as D.unfinished_as) };

    ghost at_rest_as = { one.says (one.says A.at_rest_as B.at_rest_as) (one.says C.at_rest_as D.at_rest_as) };

    ghost spends = { one.of (one.of A.spends B.spends) (one.of C.spends D.spends) };

    ghost Contents = { (A.Contents ⊎ B.Contents) ⊎ (C.Contents ⊎ D.Contents) };

    ghost keeps = { one.both (one.both A.keeps B.keeps) (one.both C.keeps D.keeps) };

    ghost number = { one.by A.number B.number C.number D.number };

    ghost disk_count = { one.by A.disk_count B.disk_count C.disk_count D.disk_count };

    ghost waits = { one.by A.waits B.waits C.waits D.waits };

    ghost stands = { one.at A.stands B.stands C.stands D.stands };

    ghost image = { one.at A.image B.image C.image D.image };

    ghost since = { one.since A.since B.since C.since D.since };

    ghost grown = { one.grown A.grown B.grown C.grown D.grown };

    ghost faults = { one.by A.faults B.faults C.faults D.faults };

    ghost disk_faults = { one.by A.disk_faults B.disk_faults C.disk_faults D.disk_faults };

    ghost stops_left = { one.has A.stops_left B.stops_left C.stops_left D.stops_left };

    ghost log_faults = { one.by A.log_faults B.log_faults C.log_faults D.log_faults };

    ghost begins = { one.begins (one.leads A.leads B.leads) (one.leads C.leads D.leads) _ _ (one.begins A.leads B.leads _ _ A.begins B.begins) (one.begins C.leads D.leads _ _ C.begins D.begins) };

    ghost phases = { one.phases (one.leads A.leads B.leads) (one.leads C.leads D.leads) _ _ (one.phases A.leads B.leads _ _ A.phases B.phases) (one.phases C.leads D.leads _ _ C.phases D.phases) };

    ghost images = { one.images A.tells B.tells C.tells D.tells A.stands B.stands C.stands D.stands A.image B.image C.image D.image A.keeps B.keeps C.keeps D.keeps A.images B.images C.images D.images };

    fn wants(&self) -> bool {
        match self {
            OneOf::First(node) => node.wants(),
            OneOf::Second(node) => node.wants(),
            OneOf::Third(node) => node.wants(),
            OneOf::Fourth(node) => node.wants(),
        }
    }

    fn unfinished(&self) -> bool {
        match self {
            OneOf::First(node) => node.unfinished(),
            OneOf::Second(node) => node.unfinished(),
            OneOf::Third(node) => node.unfinished(),
            OneOf::Fourth(node) => node.unfinished(),
        }
    }

    fn at_rest(&self) -> bool {
        match self {
            OneOf::First(node) => node.at_rest(),
            OneOf::Second(node) => node.at_rest(),
            OneOf::Third(node) => node.at_rest(),
            OneOf::Fourth(node) => node.at_rest(),
        }
    }

    fn turn<G: Gate>(&mut self, input: &Input, gate: &G) -> Result<Done, NodeFault> {
        match self {
            OneOf::First(node) => node.turn(input, gate),
            OneOf::Second(node) => node.turn(input, gate),
            OneOf::Third(node) => node.turn(input, gate),
            OneOf::Fourth(node) => node.turn(input, gate),
        }
    }

    fn restart(&mut self) -> Result<Option<Payload>, NodeFault> {
        match self {
            OneOf::First(node) => node.restart(),
            OneOf::Second(node) => node.restart(),
            OneOf::Third(node) => node.restart(),
            OneOf::Fourth(node) => node.restart(),
        }
    }
}
