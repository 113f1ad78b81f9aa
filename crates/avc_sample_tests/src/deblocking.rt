//! The deblocking filter beside a plain one, which follows clause 8.7 line after line.

ghost use Rattle.std.specs.Prelude.{◌≡◌, ◌*◌, ◌^◌, ◌≤◌, ◌<◌, length, true};

use avc_deblock::{MbInfo, picture};
use avc_plane::{Plane, Planes};
use avc_types::{FilteredEdges, Mv, OutOfMemory};
use std::alloc::Global;
use std::test::Fail;

// ---- the plain filter

/// Samples of a row of the plain filter, and rows of a component.
const SIDE: i32 = 48;

/// Samples of three components.
const ALL: usize = 6912;

// Table 8-16.
const ALPHA: [i32; 52] = [
    0, 0, 0, 0, 0, 0, 0, 0, 0, 0, 0, 0, 0, 0, 0, 0, 4, 4, 5, 6, 7, 8, 9, 10, 12, 13, 15, 17, 20,
    22, 25, 28, 32, 36, 40, 45, 50, 56, 63, 71, 80, 90, 101, 113, 127, 144, 162, 182, 203, 226,
    255, 255,
];

const BETA: [i32; 52] = [
    0, 0, 0, 0, 0, 0, 0, 0, 0, 0, 0, 0, 0, 0, 0, 0, 2, 2, 2, 3, 3, 3, 3, 4, 4, 4, 6, 6, 7, 7, 8, 8,
    9, 9, 10, 10, 11, 11, 12, 12, 13, 13, 14, 14, 15, 15, 16, 16, 17, 17, 18, 18,
];

// Table 8-17: for each indexA tC0 at bS 1, 2 and 3.
const TC0: [[i32; 3]; 52] = [
    [0, 0, 0],
    [0, 0, 0],
    [0, 0, 0],
    [0, 0, 0],
    [0, 0, 0],
    [0, 0, 0],
    [0, 0, 0],
    [0, 0, 0],
    [0, 0, 0],
    [0, 0, 0],
    [0, 0, 0],
    [0, 0, 0],
    [0, 0, 0],
    [0, 0, 0],
    [0, 0, 0],
    [0, 0, 0],
    [0, 0, 0],
    [0, 0, 1],
    [0, 0, 1],
    [0, 0, 1],
    [0, 0, 1],
    [0, 1, 1],
    [0, 1, 1],
    [1, 1, 1],
    [1, 1, 1],
    [1, 1, 1],
    [1, 1, 1],
    [1, 1, 2],
    [1, 1, 2],
    [1, 1, 2],
    [1, 1, 2],
    [1, 2, 3],
    [1, 2, 3],
    [2, 2, 3],
    [2, 2, 4],
    [2, 3, 4],
    [2, 3, 4],
    [3, 3, 5],
    [3, 4, 6],
    [3, 4, 6],
    [4, 5, 7],
    [4, 5, 8],
    [4, 6, 9],
    [5, 7, 10],
    [6, 8, 11],
    [6, 8, 13],
    [7, 10, 14],
    [8, 11, 16],
    [9, 12, 18],
    [10, 13, 20],
    [11, 15, 23],
    [13, 17, 25],
];

// Table 8-15: QPc of qPI from 30 on.
const QP_C: [i32; 22] = [
    29, 30, 31, 32, 32, 33, 34, 34, 35, 35, 36, 36, 37, 37, 37, 38, 38, 38, 39, 39, 39, 39,
];

/// The macroblocks of a picture.
#[derive(Drop)]
struct Coded {
    width: i32,
    height: i32,
    mbs: [MbInfo; 9],
    chroma_qp_index_offset: i32,
}

/// One set of eight samples across an edge: the place of q0 in its component, 0 to 2.
#[derive(Clone, Copy)]
struct Line {
    component: i32,
    is_vertical: bool,
    x: i32,
    y: i32,
}

/// p0 to p3, and q0 to q3.
#[derive(Clone, Copy)]
struct Sides {
    p: [i32; 4],
    q: [i32; 4],
}

/// bS, alpha, beta and indexA.
#[derive(Clone, Copy)]
struct Setting {
    is_luma: bool,
    strength: i32,
    alpha: i32,
    beta: i32,
    index_a: i32,
}

fn sum(terms: &[i32]) -> i32 {
    let mut total = 0i32;
    for term in terms {
        total = total.wrapping_add(*term);
    }
    total
}

fn distance(a: i32, b: i32) -> i32 {
    a.max(b).wrapping_sub(a.min(b))
}

fn clip3(low: i32, high: i32, v: i32) -> i32 {
    v.max(low).min(high)
}

fn clip1(v: i32) -> i32 {
    clip3(0, 255, v)
}

fn place(component: i32, x: i32, y: i32) -> usize
    ensures { result < 6912 }
{
    let row = component.wrapping_mul(SIDE).wrapping_add(y);
    let at = row.wrapping_mul(SIDE).wrapping_add(x);
    (at.max(0) as usize).min(ALL - 1)
}

// column and row of p or q samples, counted from q0 on, those of the p side by numbers below 0
fn sample_place(line: Line, i: i32) -> usize
    ensures { result < 6912 }
{
    if line.is_vertical {
        place(line.component, line.x.wrapping_add(i), line.y)
    } else {
        place(line.component, line.x, line.y.wrapping_add(i))
    }
}

impl Coded {
    // the macroblock of the luma sample (x, y)
    fn address(&self, x: i32, y: i32) -> i32 {
        self.width.wrapping_mul(y >> 4).wrapping_add(x >> 4)
    }

    fn mb(&self, address: i32) -> MbInfo {
        self.mbs[(address.max(0) as usize).min(8)]
    }
}

fn bit(v: i32, k: u32) -> usize
    requires { k < 32 }
    ensures { result ≤ 1 }
{
    if v >> k & 1 == 1 { 1 } else { 0 }
}

// luma4x4BlkIdx of the luma sample (x, y) (6.4.13.1)
fn block_of(x: i32, y: i32) -> usize
    ensures { result < 16 }
{
    8 * bit(y, 3) + 4 * bit(x, 3) + 2 * bit(y, 2) + bit(x, 2)
}

fn has_coefficients(mb: &MbInfo, block: usize) -> bool
    requires { block < 16 }
{
    mb.coefficients >> block & 1 == 1
}

// bS 1 or 0, of two blocks of inter macroblocks without coefficients
fn motion_strength(p: &MbInfo, kp: usize, q: &MbInfo, kq: usize) -> i32
    requires p { kp < 16 }
    requires q { kq < 16 }
{
    let (u, v) = (p.vectors[kp], q.vectors[kq]);
    let same_picture = p.pictures[kp / 4] == q.pictures[kq / 4];
    let near_x = distance(i32::from(u.x), i32::from(v.x)) < 4;
    let near_y = distance(i32::from(u.y), i32::from(v.y)) < 4;
    if same_picture && near_x && near_y {
        0
    } else {
        1
    }
}

// 8.7.2.1, with q0 the luma sample (x, y)
fn strength(c: &Coded, is_vertical: bool, x: i32, y: i32) -> i32 {
    let (xp, yp) = if is_vertical {
        (x.wrapping_sub(1), y)
    } else {
        (x, y.wrapping_sub(1))
    };
    let (p, q) = (c.mb(c.address(xp, yp)), c.mb(c.address(x, y)));
    let is_mb_edge = c.address(xp, yp) != c.address(x, y);
    let (kp, kq) = (block_of(xp, yp), block_of(x, y));
    if p.is_intra || q.is_intra {
        return if is_mb_edge { 4 } else { 3 };
    }
    if has_coefficients(&p, kp) || has_coefficients(&q, kq) {
        2
    } else {
        motion_strength(&p, kp, &q, kq)
    }
}

// QPy for luma, and for chroma the QPc that belongs to it (8.5.8)
fn qp_of(c: &Coded, component: i32, mb: &MbInfo) -> i32 {
    let qp = i32::from(mb.qp);
    if component == 0 {
        return qp;
    }
    let index = clip3(0, 51, qp.wrapping_add(c.chroma_qp_index_offset));
    if index < 30 {
        index
    } else {
        QP_C[(index.wrapping_sub(30).max(0) as usize).min(21)]
    }
}

fn entry(table: &[i32; 52], index: i32) -> i32 {
    table[(index.max(0) as usize).min(51)]
}

// 8.7.2.2
fn setting_of(c: &Coded, line: Line) -> Setting {
    let scale = if line.component == 0 { 0u32 } else { 1u32 };
    let (x, y) = if scale == 0 {
        (line.x, line.y)
    } else {
        (line.x.wrapping_mul(2), line.y.wrapping_mul(2))
    };
    let q = c.mb(c.address(x, y));
    let p = if line.is_vertical {
        c.mb(c.address(x.wrapping_sub(1), y))
    } else {
        c.mb(c.address(x, y.wrapping_sub(1)))
    };
    let average = sum(&[
        qp_of(c, line.component, &p),
        qp_of(c, line.component, &q),
        1,
    ]) >> 1;
    let index_a = clip3(0, 51, average.wrapping_add(i32::from(q.offset_a)));
    let index_b = clip3(0, 51, average.wrapping_add(i32::from(q.offset_b)));
    Setting {
        is_luma: line.component == 0,
        strength: strength(c, line.is_vertical, x, y),
        alpha: entry(&ALPHA, index_a),
        beta: entry(&BETA, index_b),
        index_a,
    }
}

// filterSamplesFlag
fn is_filtered(s: &Setting, l: &Sides) -> bool {
    s.strength != 0
        && distance(l.p[0], l.q[0]) < s.alpha
        && distance(l.p[1], l.p[0]) < s.beta
        && distance(l.q[1], l.q[0]) < s.beta
}

// p1 of luma at bS below 4, and by exchange of the sides q1
fn second(s: &Setting, tc0: i32, a: &[i32; 4], b: &[i32; 4]) -> i32 {
    if !s.is_luma || distance(a[2], a[0]) >= s.beta {
        return a[1];
    }
    let mean = sum(&[a[0], b[0], 1]) >> 1;
    let bend = sum(&[a[2], mean]).wrapping_sub(a[1].wrapping_mul(2)) >> 1;
    a[1].wrapping_add(clip3(0i32.wrapping_sub(tc0), tc0, bend))
}

// 8.7.2.3
fn weakly(s: &Setting, l: Sides) -> Sides {
    let row = TC0[(s.index_a.max(0) as usize).min(51)];
    let tc0 = row[(s.strength.wrapping_sub(1).max(0) as usize).min(2)];
    let more_p = if distance(l.p[2], l.p[0]) < s.beta {
        1
    } else {
        0
    };
    let more_q = if distance(l.q[2], l.q[0]) < s.beta {
        1
    } else {
        0
    };
    let tc = if s.is_luma {
        sum(&[tc0, more_p, more_q])
    } else {
        tc0.wrapping_add(1)
    };
    let across = l.q[0].wrapping_sub(l.p[0]).wrapping_mul(4);
    let delta = sum(&[across, l.p[1].wrapping_sub(l.q[1]), 4]) >> 3;
    let step = clip3(0i32.wrapping_sub(tc), tc, delta);
    let mut out = l;
    out.p[0] = clip1(l.p[0].wrapping_add(step));
    out.q[0] = clip1(l.q[0].wrapping_sub(step));
    out.p[1] = second(s, tc0, &l.p, &l.q);
    out.q[1] = second(s, tc0, &l.q, &l.p);
    out
}

// one side at bS 4 (8.7.2.4)
fn strong_side(s: &Setting, a: &[i32; 4], b: &[i32; 4]) -> [i32; 4] {
    let is_small = distance(a[0], b[0]) < (s.alpha >> 2).wrapping_add(2);
    if s.is_luma && is_small && distance(a[2], a[0]) < s.beta {
        [
            sum(&[a[2], a[1], a[1], a[0], a[0], b[0], b[0], b[1], 4]) >> 3,
            sum(&[a[2], a[1], a[0], b[0], 2]) >> 2,
            sum(&[a[3], a[3], a[2], a[2], a[2], a[1], a[0], b[0], 4]) >> 3,
            a[3],
        ]
    } else {
        [sum(&[a[1], a[1], a[0], b[1], 2]) >> 2, a[1], a[2], a[3]]
    }
}

fn filtered(s: &Setting, l: Sides) -> Sides {
    if !is_filtered(s, &l) {
        l
    } else if s.strength < 4 {
        weakly(s, l)
    } else {
        Sides {
            p: strong_side(s, &l.p, &l.q),
            q: strong_side(s, &l.q, &l.p),
        }
    }
}

/// The samples, and which strengths changed some.
#[derive(Drop)]
struct Plain {
    samples: [i32; 6912],
    strengths: [bool; 5],
}

impl Plain {
    // p_i and q_i
    fn sides(&self, line: Line) -> Sides {
        let mut sides = Sides {
            p: [0; 4],
            q: [0; 4],
        };
        for i in 0..4 {
            sides.p[i] = self.samples[sample_place(line, (-1i32).wrapping_sub(i as i32))];
            sides.q[i] = self.samples[sample_place(line, i as i32)];
        }
        sides
    }

    // 8.7.2
    fn filter_line(&mut self, c: &Coded, line: Line) {
        let before = self.sides(line);
        let s = setting_of(c, line);
        let after = filtered(&s, before);
        for i in 0..3 {
            let at = i as i32;
            if before.p[i] != after.p[i] {
                self.strengths[(s.strength.max(0) as usize).min(4)] = true;
            }
            self.samples[sample_place(line, (-1i32).wrapping_sub(at))] = after.p[i];
            self.samples[sample_place(line, at)] = after.q[i];
        }
    }

    // the edge at this offset inside macroblock a (8.7.1)
    fn filter_edge(&mut self, c: &Coded, a: i32, component: i32, is_vertical: bool, offset: i32) {
        let size = if component == 0 { 16i32 } else { 8i32 };
        let left = size.wrapping_mul(a.wrapping_rem(c.width.max(1)));
        let top = size.wrapping_mul(a.wrapping_div(c.width.max(1)));
        for k in 0..size {
            let (x, y) = if is_vertical {
                (offset, k)
            } else {
                (k, offset)
            };
            let line = Line {
                component,
                is_vertical,
                x: left.wrapping_add(x),
                y: top.wrapping_add(y),
            };
            self.filter_line(c, line);
        }
    }

    // the edges of one direction of a component of macroblock a
    fn filter_edges(&mut self, c: &Coded, a: i32, component: i32, is_vertical: bool) {
        if filters_outer(c, a, is_vertical) {
            self.filter_edge(c, a, component, is_vertical, 0);
        }
        if filters_inner(c, a) {
            self.filter_edge(c, a, component, is_vertical, 4);
        }
        if filters_inner(c, a) && component == 0 {
            self.filter_edge(c, a, component, is_vertical, 8);
            self.filter_edge(c, a, component, is_vertical, 12);
        }
    }

    // 8.7
    fn filter(&mut self, c: &Coded) {
        for a in 0..c.width.wrapping_mul(c.height) {
            for component in 0..3 {
                self.filter_edges(c, a, component, true);
                self.filter_edges(c, a, component, false);
            }
        }
    }
}

// filterInternalEdgesFlag
fn filters_inner(c: &Coded, a: i32) -> bool {
    c.mb(a).filtered_edges != FilteredEdges::NoEdges
}

// filterLeftMbEdgeFlag and filterTopMbEdgeFlag
fn filters_outer(c: &Coded, a: i32, is_vertical: bool) -> bool {
    let is_border = if is_vertical {
        a.wrapping_rem(c.width.max(1)) == 0
    } else {
        a < c.width
    };
    let back = if is_vertical { 1 } else { c.width };
    let other = c.mb(a.wrapping_sub(back));
    let mb = c.mb(a);
    if is_border || mb.filtered_edges == FilteredEdges::NoEdges {
        false
    } else {
        mb.filtered_edges == FilteredEdges::All || mb.slice == other.slice
    }
}

// ---- random pictures

#[derive(Drop)]
struct Random {
    state: u64,
}

impl Random {
    fn bits(&mut self) -> u32 {
        self.state = self
            .state
            .wrapping_mul(6364136223846793005)
            .wrapping_add(1442695040888963407);
        (self.state >> 33) as u32
    }

    // 0 to n - 1
    fn below(&mut self, n: u32) -> u32
        requires { 1 ≤ n }
        ensures { result < n }
    {
        self.bits() % n
    }

    // -n to n
    fn within(&mut self, n: u16) -> i16
        requires { n < 2 ^ 15 }
    {
        let up = self.below(u32::from(n) + 1) as i16;
        if self.below(2) == 0 {
            up
        } else {
            0i16.wrapping_sub(up)
        }
    }

    fn component(&mut self) -> i16 {
        match self.below(16) {
            0 => 32767,
            1 => -32768,
            _ => self.within(4),
        }
    }

    fn vector(&mut self) -> Mv {
        Mv {
            x: self.component(),
            y: self.component(),
        }
    }

    // of one motion in every second macroblock
    fn vectors(&mut self) -> [Mv; 16] {
        let mut vectors = [self.vector(); 16];
        if self.below(2) == 0 {
            for k in 0..16 {
                vectors[k] = self.vector();
            }
        }
        vectors
    }

    fn pictures(&mut self) -> [u8; 4] {
        let mut pictures = [self.below(2) as u8; 4];
        if self.below(2) == 0 {
            for k in 0..4 {
                pictures[k] = self.below(3) as u8;
            }
        }
        pictures
    }

    fn coefficients(&mut self) -> u16 {
        match self.below(3) {
            0 => 0,
            1 => self.below(65536) as u16,
            _ => (self.below(65536) as u16)
                & (self.below(65536) as u16)
                & (self.below(65536) as u16),
        }
    }

    fn qp(&mut self) -> u8 {
        match self.below(4) {
            0 => self.below(52) as u8,
            1 => 51,
            _ => 26 + self.below(26) as u8,
        }
    }

    fn filtered_edges(&mut self) -> FilteredEdges {
        match self.below(5) {
            0 => FilteredEdges::NoEdges,
            1 | 2 => FilteredEdges::WithinSlice,
            _ => FilteredEdges::All,
        }
    }

    // FilterOffsetA or FilterOffsetB
    fn offset(&mut self) -> i8 {
        self.within(6).clamp(-6, 6).wrapping_mul(2).clamp(-12, 12) as i8
    }

    // a macroblock of the slice of `before`, or of the next one
    fn mb(&mut self, before: &MbInfo) -> MbInfo {
        let mut mb = *before;
        if self.below(3) == 0 {
            mb.slice = before.slice.wrapping_add(1);
            mb.filtered_edges = self.filtered_edges();
            mb.offset_a = self.offset();
            mb.offset_b = self.offset();
        }
        mb.is_intra = self.below(4) == 0;
        mb.coefficients = self.coefficients();
        mb.pictures = self.pictures();
        mb.vectors = self.vectors();
        mb.qp = self.qp();
        mb
    }

    fn mbs(&mut self) -> [MbInfo; 9] {
        let mut mb = MbInfo {
            is_intra: false,
            coefficients: 0,
            pictures: [0; 4],
            vectors: [Mv { x: 0, y: 0 }; 16],
            qp: 40,
            slice: 0,
            filtered_edges: FilteredEdges::All,
            offset_a: 0,
            offset_b: 0,
        };
        let mut mbs = [mb; 9];
        for a in 0..9 {
            mb = self.mb(&mb);
            mbs[a] = mb;
        }
        mbs
    }

    // how far samples lie from their mean
    fn roughness(&mut self) -> u16
        ensures { result ≤ 200 }
    {
        match self.below(4) {
            0 => 1,
            1 => 4,
            2 => 12,
            _ => 200,
        }
    }

    fn samples(&mut self) -> [i32; 6912] {
        let rough = self.roughness();
        let level = self.below(256) as i32;
        let mut samples = [0; 6912];
        for k in 0..ALL {
            samples[k] = clip1(level.wrapping_add(i32::from(self.within(rough))));
        }
        samples
    }
}

// ---- both

fn fill(plane: &mut Plane<0>, samples: &[i32; 6912], component: i32) {
    for y in 0..48 {
        for x in 0..48 {
            if x < plane.width() && y < plane.height() {
                let sample = samples[place(component, x as i32, y as i32)];
                plane.set(x, y, sample.clamp(0, 255) as u8);
            }
        }
    }
}

fn is_plane(plane: &Plane<0>, samples: &[i32; 6912], component: i32) -> bool {
    let mut same = true;
    for y in 0..48 {
        for x in 0..48 {
            if x < plane.width() && y < plane.height() {
                let sample = i32::from(plane.get(x, y));
                same = same && sample == samples[place(component, x as i32, y as i32)];
            }
        }
    }
    same
}

fn has_size(plane: &Plane<0>, width: usize, height: usize) -> bool
    ensures { result ≡ true → (plane.now.width ≡ width) × (plane.now.height ≡ height) }
{
    plane.width() == width && plane.height() == height
}

// The filter under test, if the planes have this many macroblocks.
fn deblock(planes: &mut Planes<0>, mbs: &[MbInfo], width: usize, height: usize, offset: i8) -> bool
    requires all { length mbs.now ≡ height * width }
    requires columns { width ≤ 3 }
    requires rows { height ≤ 3 }
{
    if !has_size(&planes.luma, 16 * width, 16 * height) {
        return false;
    }
    if !has_size(&planes.cb, 8 * width, 8 * height) {
        return false;
    }
    if !has_size(&planes.cr, 8 * width, 8 * height) {
        return false;
    }
    picture(planes, mbs, width, height, offset);
    true
}

// One random picture of W columns and H rows of macroblocks, N in all, is filtered as the plain
// filter does it. Marks the strengths that changed a sample.
fn is_plain<const W: usize, const H: usize, const N: usize>(
    alloc: Global,
    random: &mut Random,
    strengths: &mut [bool; 5],
) -> Result<bool, OutOfMemory>
    requires columns { W ≤ 3 }
    requires rows { H ≤ 3 }
    requires all { H * W ≡ N }
    requires few { N ≤ 9 }
{
    let mbs = random.mbs();
    let offset = random.within(12).clamp(-12, 12) as i8;
    let mut plain = Plain {
        samples: random.samples(),
        strengths: *strengths,
    };
    let mut planes = Planes::<0>::new(alloc, W, H)?;
    fill(&mut planes.luma, &plain.samples, 0);
    fill(&mut planes.cb, &plain.samples, 1);
    fill(&mut planes.cr, &plain.samples, 2);
    let c = Coded {
        width: W as i32,
        height: H as i32,
        mbs,
        chroma_qp_index_offset: i32::from(offset),
    };
    plain.filter(&c);
    *strengths = plain.strengths;
    let done = deblock(&mut planes, &mbs[..N], W, H, offset);
    let luma = is_plane(&planes.luma, &plain.samples, 0);
    let cb = is_plane(&planes.cb, &plain.samples, 1);
    let cr = is_plane(&planes.cr, &plain.samples, 2);
    Ok(done && luma && cb && cr)
}

// The size of the first of five pictures that is not filtered so, in macroblocks, if one is not.
fn differing_size(
    alloc: Global,
    random: &mut Random,
    strengths: &mut [bool; 5],
) -> Result<Option<&'static str>, OutOfMemory> {
    if !is_plain::<1, 1, 1>(alloc, random, strengths)? {
        return Ok(Some("1 by 1"));
    }
    if !is_plain::<2, 2, 4>(alloc, random, strengths)? {
        return Ok(Some("2 by 2"));
    }
    if !is_plain::<3, 2, 6>(alloc, random, strengths)? {
        return Ok(Some("3 by 2"));
    }
    if !is_plain::<1, 3, 3>(alloc, random, strengths)? {
        return Ok(Some("1 by 3"));
    }
    if !is_plain::<3, 1, 3>(alloc, random, strengths)? {
        return Ok(Some("3 by 1"));
    }
    Ok(None)
}

#[test]
fn random_pictures_are_filtered_line_by_line(rt: HostRuntime) -> Result<(), Fail> {
    let mut random = Random { state: 1 };
    let mut strengths = [false; 5];
    for round in 0..4 {
        assert_eq!(rt;
            differing_size(rt.alloc(), &mut random, &mut strengths)?,
            None,
            "round {round}"
        );
    }
    assert_eq!(rt; strengths, [false, true, true, true, true]);
    Ok(())
}
