// What each place's step accesses and does, by value.
#![tactic(auto)]

ghost use Rattle.std.specs.Prelude.{◌≡◌};
ghost use Rattle.rules.specs.Places.{access_of, effect_of, follow_of};
ghost use Rattle.rules.specs.Sizes.{base};
ghost use Rattle.rules.specs.Rows.{first};

use rules::pc::Pc;
use rules::{Access, Effect, Named, Row, Seen};

// The first stolen node of the row's shard.
pub fn first(r: Row) -> u32
    ensures { result ≡ first r }
{
    r.first()
}

// The access that a row's step makes.
#[tactic(auto, unfolding(rules::specs::Places::access_of))]
pub fn access(r: Row) -> Access
    ensures { result ≡ access_of r }
{
    match Pc::from(r.place) {
        Pc::Idle | Pc::Unknown => Access::Load(Named::Nothing),
        Pc::A1 => Access::Load(Named::HeadAvailable),
        Pc::A2 => Access::Update(Named::HeadAvailable),
        Pc::A3 => Access::Load(Named::AvailableNext(r.rec)),
        Pc::A4 => Access::Store(Named::HeadAvailable),
        Pc::A5 => Access::Store(Named::AvailableNext(r.rec)),
        Pc::A6 => Access::Load(Named::AvailableNext(r.rec)),
        Pc::N1 => Access::Load(Named::RecordHead),
        Pc::N2 => Access::Update(Named::RecordHead),
        Pc::N3 => Access::Update(Named::RecordCount),
        Pc::D1 => Access::HazardStore(Named::Hazard(r.rec)),
        Pc::D2 => Access::Load(Named::AvailableNext(r.rec)),
        Pc::P1 => Access::Load(Named::HeadAvailable),
        Pc::P2 => Access::Store(Named::AvailableNext(r.rec)),
        Pc::P3 => Access::Update(Named::HeadAvailable),
        Pc::V0 => Access::Load(Named::Source(r.source)),
        Pc::V1 => Access::HazardStore(Named::Hazard(r.rec)),
        Pc::V2 => Access::Load(Named::Source(r.source)),
        Pc::V3 => Access::HazardStore(Named::Hazard(r.rec)),
        Pc::Reset => Access::HazardStore(Named::Hazard(r.rec)),
        Pc::Raw => Access::HazardStore(Named::Hazard(r.rec)),
        Pc::Swap => Access::Update(Named::Source(r.source)),
        Pc::T1 => Access::Load(Named::ShardHead(r.shard)),
        Pc::T2 => Access::Update(Named::ShardHead(r.shard)),
        Pc::T3 => Access::Update(Named::Count),
        Pc::K1 => Access::Load(Named::Count),
        Pc::K2 => Access::Load(Named::RecordCount),
        Pc::K3 => Access::Update(Named::Count),
        Pc::K4 => Access::Store(Named::DueTime),
        Pc::E1 => Access::Load(Named::DueTime),
        Pc::E2 => Access::Update(Named::DueTime),
        Pc::E3 => Access::Update(Named::Count),
        Pc::B1 => Access::Update(Named::BulkReclaims),
        Pc::Steal => Access::Update(Named::ShardHead(r.shard)),
        Pc::H1 => Access::Load(Named::RecordHead),
        Pc::H2 => Access::Load(Named::Hazard(r.rec)),
        Pc::Examine => Access::Private(Named::NodeNext(r.first())),
        Pc::Reclaim => Access::Private(Named::NodeNext(r.reclaimable)),
        Pc::Empty => Access::Load(Named::ShardHead(r.shard)),
        Pc::Push1 => Access::Load(Named::ShardHead(0)),
        Pc::Push2 => Access::Update(Named::ShardHead(0)),
        Pc::C1 => Access::Update(Named::Count),
        Pc::C3 => Access::Update(Named::BulkReclaims),
        Pc::Wait => Access::Load(Named::BulkReclaims),
        Pc::S1 => Access::Update(Named::ShardHead(r.shard)),
        Pc::S2 => Access::Private(Named::NodeNext(r.reclaimable)),
        Pc::S3 => Access::Store(Named::Shutdown),
    }
}

// The cell that it reads beside it. The last arm is for all places that read none: their names would say nothing.
#[tactic(auto, using(crate::proofs::Numbers::code_of), unfolding(rules::specs::Places::follow_of))]
pub fn follow(r: Row, untaken: u32) -> Named
    ensures { result ≡ follow_of r untaken }
{
    match Pc::from(r.place) {
        Pc::H2 => Named::RecordNext(r.rec),
        Pc::Swap if r.node != 0 => Named::NodeState(r.node),
        Pc::N1 if untaken != 0 => Named::Holder(untaken),
        _ => Named::Nothing,
    }
}

// What a row's step does with what it saw. A match on the enum is whole by its type, as a table of functions is not.
#[tactic(auto, unfolding(rules::specs::Places::effect_of))]
pub fn effect(r: Row, i: Seen) -> Effect
    ensures { result ≡ effect_of base r i }
{
    match Pc::from(r.place) {
        Pc::Idle | Pc::Unknown => effects::damaged(r),
        Pc::A1 => acquire::acquire::a1(r, i),
        Pc::A2 => acquire::acquire::a2(r, i),
        Pc::A3 => acquire::acquire::a3(r, i),
        Pc::A4 => acquire::acquire::a4(r, i),
        Pc::A5 => acquire::acquire::a5(r, i),
        Pc::A6 => acquire::acquire::a6(r, i),
        Pc::N1 => acquire::acquire::n1(r, i),
        Pc::N2 => acquire::acquire::n2(r, i),
        Pc::N3 => acquire::acquire::n3(r, i),
        Pc::D1 => acquire::release::d1(r, i),
        Pc::D2 => acquire::release::d2(r, i),
        Pc::P1 => acquire::release::p1(r, i),
        Pc::P2 => acquire::release::p2(r, i),
        Pc::P3 => acquire::release::p3(r, i),
        Pc::V0 => protect::v0(r, i),
        Pc::V1 => protect::v1(r, i),
        Pc::V2 => protect::v2(r, i),
        Pc::V3 => protect::v3(r, i),
        Pc::Reset => protect::reset(r, i),
        Pc::Raw => protect::raw(r, i),
        Pc::Swap => protect::swap(r, i),
        Pc::T1 => retire::t1(r, i),
        Pc::T2 => retire::t2(r, i),
        Pc::T3 => retire::t3(r, i),
        Pc::K1 => retire::k1(r, i),
        Pc::K2 => retire::k2(r, i),
        Pc::K3 => retire::k3(r, i),
        Pc::K4 => retire::k4(r, i),
        Pc::E1 => retire::e1(r, i),
        Pc::E2 => retire::e2(r, i),
        Pc::E3 => retire::e3(r, i),
        Pc::B1 => reclaim::reclaim::b1(r, i),
        Pc::Steal => reclaim::reclaim::steal(r, i),
        Pc::H1 => reclaim::reclaim::h1(r, i),
        Pc::H2 => reclaim::reclaim::h2(r, i),
        Pc::Examine => reclaim::reclaim::examine(r, i),
        Pc::Reclaim => reclaim::reclaim::reclaim(r, i),
        Pc::Empty => reclaim::reclaim::empty(r, i),
        Pc::Push1 => reclaim::reclaim::push1(r, i),
        Pc::Push2 => reclaim::reclaim::push2(r, i),
        Pc::C1 => reclaim::reclaim::c1(r, i),
        Pc::C3 => reclaim::reclaim::c3(r, i),
        Pc::Wait => reclaim::reclaim::wait(r, i),
        Pc::S1 => reclaim::shutdown::s1(r, i),
        Pc::S2 => reclaim::shutdown::s2(r, i),
        Pc::S3 => reclaim::shutdown::s3(r, i),
    }
}
