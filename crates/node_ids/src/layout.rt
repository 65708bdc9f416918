//! Which bits of an id are which.

ghost use Rattle.std.specs.Prelude.{◌≡◌, ◌≤◌, ◌<◌, ◌^◌, ◌+◌, ◌*◌, IfOk, IfErr, IsOk, ◌↔◌};
ghost use Rattle.node_ids.specs.Ids.{PartsFit, id_over, parts_of, width};
ghost use Rattle.node_ids.specs.Packing.{packed};

use crate::{NodeId, PartName, PartTooLarge, Parts};
use std::marker::Model;

/// How many bits of an id each coordinate takes at each layer. Contracts see the version and the number of bits.
///
/// Eight bits are the layer's, and what the three coordinates leave of the other 56 is the segment's.
/// In version 1 a coordinate takes the same number of bits at every layer. In version 2 it takes one less for each
/// layer above the second, and at least one, so that higher chunks have room for more segments.
#[derive(Clone, Copy, PartialEq, Eq, Debug)]
pub struct Layout {
    version: u8,
    bits: u8,
}

impl Model for Layout {
    ghost use Rattle.node_ids.specs.Ids.{LayoutForm, IsLayout};

    ghost Value = { LayoutForm };

    ghost view = { λ a. record { version = a.version; bits = a.bits } };

    ghost invariant = { λ a. IsLayout (record { version = a.version; bits = a.bits }) };

    ghost inverse = { λ f. record { version = f.version; bits = f.bits } };
}

/// The number of bits isn't from 1 to 16.
#[derive(Clone, Copy, PartialEq, Eq, Debug)]
pub struct BadBits;

/// The version isn't 1 or 2, or the number of bits isn't from 1 to 16.
#[derive(Clone, Copy, PartialEq, Eq, Debug)]
pub struct BadLayout {
    /// The version that was asked for.
    pub version: u8,
    /// The number of bits that was asked for.
    pub bits: u8,
}

impl Layout {
    /// The layout of version 1 where a coordinate takes so many bits, which are from 1 to 16.
    pub fn new(bits: u8) -> Result<Layout, BadBits>
        ensures made { IfOk result (λ y. y ≡ record { version = 1; bits = bits }) }
        ensures when { IsOk result ↔ ((1 ≤ bits) × (bits ≤ 16)) }
    {
        if bits == 0 || bits > 16 {
            return Err(BadBits);
        }
        Ok(Layout { version: 1, bits })
    }

    /// The layout of a version, 1 or 2, where a coordinate takes so many bits at the lowest layers, from 1 to 16.
    pub fn of_version(version: u8, bits: u8) -> Result<Layout, BadLayout>
        ensures made { IfOk result (λ y. y ≡ record { version = version; bits = bits }) }
        ensures named { IfErr result (λ e. e ≡ record { version = version; bits = bits }) }
        ensures when { IsOk result ↔ ((1 ≤ version) × (version ≤ 2) × (1 ≤ bits) × (bits ≤ 16)) }
    {
        if version == 0 || version > 2 || bits == 0 || bits > 16 {
            return Err(BadLayout { version, bits });
        }
        Ok(Layout { version, bits })
    }

    /// The version, 1 or 2.
    pub fn version(&self) -> u8
        ensures is { result ≡ self.now.version }
        ensures range { (1 ≤ result) × (result ≤ 2) }
    {
        self.version
    }

    /// How many bits each coordinate takes at the lowest layers, from 1 to 16.
    pub fn bits(&self) -> u8
        ensures is { result ≡ self.now.bits }
        ensures range { (1 ≤ result) × (result ≤ 16) }
    {
        self.bits
    }

    /// How many bits each coordinate takes at a layer, from 1 to 16.
    #[tactic(auto, unfolding(crate::specs::Ids::width))]
    pub fn width(&self, layer: u8) -> u8
        ensures is { result ≡ width self.now layer }
        ensures range { (1 ≤ result) × (result ≤ 16) }
    {
        if self.version == 2 && layer > 2 {
            let left = (self.bits + 2).saturating_sub(layer);
            if left > 1 { left } else { 1 }
        } else {
            self.bits
        }
    }

    /// The id of these parts, or the first of x, y, z and the segment that is too large for its bits.
    #[tactic(auto, unfolding(crate::specs::Packing::packed))]
    pub fn pack(&self, parts: Parts) -> Result<NodeId, PartTooLarge>
        ensures { result ≡ packed self.now parts }
    {
        let width = self.width(parts.layer);
        let most = power(width) - 1;
        let greatest = power(56 - 3 * width) - 1;
        if parts.x as u64 > most {
            return Err(PartTooLarge {
                part: PartName::X,
                value: parts.x as u64,
                greatest: most,
            });
        }
        if parts.y as u64 > most {
            return Err(PartTooLarge {
                part: PartName::Y,
                value: parts.y as u64,
                greatest: most,
            });
        }
        if parts.z as u64 > most {
            return Err(PartTooLarge {
                part: PartName::Z,
                value: parts.z as u64,
                greatest: most,
            });
        }
        if parts.segment > greatest {
            return Err(PartTooLarge {
                part: PartName::Segment,
                value: parts.segment,
                greatest,
            });
        }
        Ok(NodeId(join(parts, width)))
    }

    /// The parts of an id, which any number has.
    #[tactic(auto, unfolding(crate::specs::Ids::parts_of, crate::specs::Ids::parts_over))]
    pub fn unpack(&self, id: NodeId) -> Parts
        ensures { result ≡ parts_of self.now id }
    {
        let layer = (id.0 >> 56) as u8;
        let width = self.width(layer);
        let side = power(width);
        Parts {
            layer,
            x: ((id.0 >> (56 - width)) % side) as u32,
            y: ((id.0 >> (56 - 2 * width)) % side) as u32,
            z: ((id.0 >> (56 - 3 * width)) % side) as u32,
            segment: id.0 % power(56 - 3 * width),
        }
    }
}

// 2 to this power
fn power(bits: u8) -> u64
    requires { bits < 64 }
    ensures { result ≡ 2 ^ bits }
{
    1 << bits
}

// a number of so many bits, and so many lower bits behind it
fn behind(high: u64, taken: u8, bits: u8, low: u64) -> u64
    requires room { taken + bits ≤ 64 }
    requires some { 1 ≤ taken }
    requires high { high < 2 ^ taken }
    requires low { low < 2 ^ bits }
    ensures is { result ≡ high * 2 ^ bits + low }
    ensures below { result < 2 ^ (taken + bits) }
{
    (high << bits) + low
}

// the id of parts that fit, where each coordinate takes so many bits
fn join(parts: Parts, width: u8) -> u64
    requires low { width ≤ 16 }
    requires fits { PartsFit width parts }
    ensures { result ≡ id_over width parts }
{
    let x = behind(parts.layer as u64, 8, width, parts.x as u64);
    let y = behind(x, 8 + width, width, parts.y as u64);
    let z = behind(y, 8 + width + width, width, parts.z as u64);
    behind(z, 8 + width + width + width, 56 - 3 * width, parts.segment)
}
