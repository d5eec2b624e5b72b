ghost use Rattle.std.specs.Prelude.{◌≡◌, ℕ, List, length, IfOk};
ghost use Rattle.fp_numbering.specs.Broken.{AreDifferent};
ghost use Rattle.fp_numbering.specs.Faults.{IsTwicePlainly, FindsNonePlainly};
ghost use Rattle.fp_base.specs.Least.{IsLeast, InSome};
ghost use Rattle.fp_numbering.specs.Ends.{matches_of};
ghost use Rattle.fp_numbering.specs.Labels.{label_at, matches_lie, AreAllLabels};
ghost use Rattle.fp_numbering.specs.Looks.{AreLooks, AreFound};
ghost use Rattle.fp_numbering.specs.Origins.{AreLanes, AreMade, lane_tip, port_tip, said_tip};
ghost use Rattle.fp_numbering.specs.Walks.{AreAllGiven};
ghost use Rattle.fp_numbering.specs.Walked.{AreWalked, BreaksWalked};

use crate::differing::differ_faults;
use crate::faults::{none_faults, range_faults, twice_faults};
use crate::found::origins_of;
use crate::lanes::lanes_of;
use crate::looks::{Look, looks_of};
use crate::numbers::plain_numbers;
use crate::origins::Origin;
use crate::partners::partner_faults;
use crate::tips::Tip;
use crate::walks::{lane_tips, port_tips, said_tips};
use fp_base::{NoMemory, Refusal, Row, lesser};
use fp_tables::Model;
use std::alloc::Global;

/// The labels of ports, what is looked at in each end and where its number comes from, the ends in their lanes with the numbers found there,
/// the ends at their ports with their numbers, and the ends with what is said of them.
#[derive(Drop)]
pub struct Walked {
    pub labels: Row<Row<u32>>,
    pub looks: Row<Look>,
    pub origins: Row<Origin>,
    pub lanes: Row<Tip>,
    pub found: Row<Option<u32>>,
    pub ports: Row<Tip>,
    pub numbers: Row<Option<u32>>,
    pub said: Row<Tip>,
}

fn labels(alloc: Global, model: &Model) -> Result<Row<Row<u32>>, NoMemory>
    requires { matches_lie model.now.components }
    ensures { IfOk result (λ labels. AreAllLabels model.now.components labels) }
{
    lanes_of(alloc, model.components.as_slice())
}

fn looks(
    alloc: Global,
    model: &Model,
    labels: &Row<Row<u32>>,
    tips: &[Tip],
) -> Result<Row<Look>, NoMemory>
    ensures { IfOk result (λ looks. AreLooks (matches_of model.now) tips.now (label_at model.now labels.now) looks) }
{
    looks_of(alloc, model, labels.as_slice(), tips)
}

fn origins(alloc: Global, looks: &Row<Look>) -> Result<Row<Origin>, NoMemory>
    ensures { IfOk result (λ origins. AreFound looks.now origins) }
{
    origins_of(alloc, looks.as_slice())
}

fn lanes(
    alloc: Global,
    model: &Model,
    labels: &Row<Row<u32>>,
    tips: &[Tip],
    origins: &Row<Origin>,
) -> Result<Row<Tip>, NoMemory>
    requires { length origins.now ≡ length tips.now }
    ensures { IfOk result (λ made. AreMade (λ k o t. lane_tip (label_at model.now labels.now t.instance t.port) k o t) tips.now origins.now made) }
{
    lane_tips(alloc, model, labels.as_slice(), tips, origins.as_slice())
}

fn ports(
    alloc: Global,
    found: &Row<Option<u32>>,
    tips: &[Tip],
    origins: &Row<Origin>,
) -> Result<Row<Tip>, NoMemory>
    requires { length origins.now ≡ length tips.now }
    ensures { IfOk result (λ made. AreMade (λ k o t. port_tip found.now o t) tips.now origins.now made) }
{
    port_tips(alloc, found.as_slice(), tips, origins.as_slice())
}

fn said(alloc: Global, tips: &[Tip], origins: &Row<Origin>) -> Result<Row<Tip>, NoMemory>
    requires { length origins.now ≡ length tips.now }
    ensures { IfOk result (λ made. AreMade (λ k o t. said_tip o t) tips.now origins.now made) }
{
    said_tips(alloc, tips, origins.as_slice())
}

fn numbers(alloc: Global, tips: &Row<Tip>) -> Result<Row<Option<u32>>, NoMemory>
    ensures { IfOk result (λ numbers. AreAllGiven tips.now numbers) }
{
    plain_numbers(alloc, tips.as_slice())
}

/// The walks over the ends of connections.
pub fn walk(alloc: Global, model: &Model, tips: &[Tip]) -> Result<Walked, NoMemory>
    requires { matches_lie model.now.components }
    ensures { IfOk result (AreWalked model.now tips.now) }
{
    let labels = labels(alloc, model)?;
    let looks = looks(alloc, model, &labels, tips)?;
    let origins = origins(alloc, &looks)?;
    let lanes = lanes(alloc, model, &labels, tips, &origins)?;
    let found = numbers(alloc, &lanes)?;
    let ports = ports(alloc, &found, tips, &origins)?;
    let numbers = numbers(alloc, &ports)?;
    let said = said(alloc, tips, &origins)?;
    Ok(Walked {
        labels,
        looks,
        origins,
        lanes,
        found,
        ports,
        numbers,
        said,
    })
}

fn twice(alloc: Global, tips: &Row<Tip>) -> Result<Option<Refusal>, NoMemory>
    ensures { IfOk result (λ first. IsLeast (InSome (IsTwicePlainly tips.now) tips.now) first) }
{
    twice_faults(alloc, tips.as_slice())
}

fn differ(alloc: Global, tips: &[Tip], looks: &Row<Look>) -> Result<Option<Refusal>, NoMemory>
    requires { length tips.now ≡ length looks.now }
    ensures { (matches : ℕ → List (ℕ × ℕ)) (label : ℕ → ℕ → ℕ) → AreLanes matches tips.now label → AreLooks matches tips.now label looks.now
        → IfOk result (λ first. IsLeast (InSome (AreDifferent matches tips.now) tips.now) first) }
{
    differ_faults(alloc, tips, looks.as_slice())
}

fn none(tips: &Row<Tip>, numbers: &Row<Option<u32>>) -> Option<Refusal>
    requires { length numbers.now ≡ length tips.now }
    ensures { IsLeast (InSome (FindsNonePlainly tips.now numbers.now) tips.now) result }
{
    none_faults(tips.as_slice(), numbers.as_slice())
}

/// The least that is broken.
pub fn walked_faults(
    alloc: Global,
    model: &Model,
    tips: &[Tip],
    walked: &Walked,
) -> Result<Option<Refusal>, NoMemory>
    requires walked { AreWalked model.now tips.now walked.now }
    requires lanes { AreLanes (matches_of model.now) tips.now (label_at model.now walked.now.labels) }
    ensures { IfOk result (λ first. IsLeast (BreaksWalked model.now tips.now walked.now) first) }
{
    let range = range_faults(tips);
    let twice = twice(alloc, &walked.said)?;
    let lack = partner_faults(alloc, model, tips)?;
    let differ = differ(alloc, tips, &walked.looks)?;
    let lanes = none(&walked.lanes, &walked.found);
    let ports = none(&walked.ports, &walked.numbers);
    Ok(lesser(
        range,
        lesser(twice, lesser(lack, lesser(differ, lesser(lanes, ports)))),
    ))
}
