ghost use Rattle.std.specs.Prelude.{◌≡◌, ◌*◌, ◌/◌, ◌%◌, ◌<◌, ◌↔◌, IsTrue};
ghost use Rattle.pl_wiring.specs.Labels.{IsArity, IsLabel, edge_count, switch_count, number_of, label_of};

use crate::{Label, SwitchNo};

// Half of a switch's ports lead up, and a pod or a group has as many switches of a level.
pub fn half(k: u8) -> u32
    ensures { result ≡ k / 2 }
{
    u32::from(k / 2)
}

// The edge switches of all pods; there are as many aggregation switches.
pub fn edges(k: u8) -> u32
    requires { IsArity k }
    ensures { result ≡ edge_count k }
{
    u32::from(k) * half(k)
}

pub fn switches(k: u8) -> u32
    requires { IsArity k }
    ensures { result ≡ switch_count k }
{
    2 * edges(k) + half(k) * half(k)
}

pub fn label_at(k: u8, switch: SwitchNo) -> Label
    requires arity { IsArity k }
    requires in_range { switch.0 < switch_count k }
    ensures { result ≡ label_of k switch.0 }
{
    let SwitchNo(number) = switch;
    let edges = edges(k);
    if number < edges {
        let (pod, i) = row_and_column(number, half(k));
        Label::Edge(pod, i)
    } else if number < 2 * edges {
        let (pod, j) = row_and_column(number - edges, half(k));
        Label::Aggregation(pod, j)
    } else {
        let (group, m) = row_and_column(number - 2 * edges, half(k));
        Label::Core(group as u8, m)
    }
}

fn row_and_column(number: u32, width: u32) -> (u16, u8)
    requires some { 0 < width }
    requires narrow { width < 256 }
    requires low { number < 65536 * width }
    ensures { result ≡ (number / width, number % width) }
{
    ((number / width) as u16, (number % width) as u8)
}

pub fn is_label(k: u8, label: Label) -> bool
    ensures { IsTrue result ↔ IsLabel k label }
{
    match label {
        Label::Edge(pod, i) => pod < u16::from(k) && i < k / 2,
        Label::Aggregation(pod, j) => pod < u16::from(k) && j < k / 2,
        Label::Core(group, m) => group < k / 2 && m < k / 2,
    }
}

pub fn switch_at(k: u8, label: Label) -> SwitchNo
    requires arity { IsArity k }
    requires in_range { IsLabel k label }
    ensures { result.0 ≡ number_of k label }
{
    match label {
        Label::Edge(pod, i) => SwitchNo(u32::from(pod) * half(k) + u32::from(i)),
        Label::Aggregation(pod, j) => {
            SwitchNo(edges(k) + (u32::from(pod) * half(k) + u32::from(j)))
        }
        Label::Core(group, m) => {
            SwitchNo(2 * edges(k) + (u32::from(group) * half(k) + u32::from(m)))
        }
    }
}
