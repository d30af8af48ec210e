// What a move stores in the second buffer before the head: the flakes as they stand, records and tags nugget by nugget, the tree.
ghost use Rattle.std.specs.Prelude.{◌≡◌, ◌<◌};
ghost use Rattle.layout.specs.Shaped.{Shaped};
ghost use Rattle.drive.specs.Drive.{shape_of};
ghost use Rattle.moving.specs.Carry.{SameSizes, copied, new_tag, tags_to, carried, carried_to, carried_over};

use drive::Drive;
use layout::Shape;
use nuggets::Nugget;

// "same [..] stored flakes", absent ones too; all else is cleared.
fn copy_flakes(vol: &[u8], s: Shape, second: &mut [u8], t: Shape)
    requires { Shaped s vol.now × Shaped t second.old × SameSizes s t }
    ensures { second.new ≡ copied s t vol.now }
{
    words::clear(&mut *second);
    let from = layout::flakes_at(s);
    let end = from + layout::capacity_of(s);
    let at = layout::flakes_at(t);
    words::copy(second, at, &vol[from..end]);
}

// "present flakes' tags made anew [..]; absent ones' copied"
fn new_tag(vol: &[u8], s: Shape, g: Nugget, f: u32) -> [u8; 16]
    requires { Shaped s vol.now × (g.lock.number < s.n) × (f < s.p) }
    ensures { result ≡ new_tag s vol.now g f }
{
    if records::has(g.held, f) {
        let at = layout::flake_at(s, g.lock.number, f);
        let end = at + (s.f as usize);
        keys::tag_of(&vol[at..end], g.lock, f)
    } else {
        words::taken(vol, layout::tag_at(s, g.lock.number, f))
    }
}

// The tags of a nugget.
fn carry_tags(vol: &[u8], s: Shape, second: &mut [u8], t: Shape, g: Nugget)
    requires { Shaped s vol.now × Shaped t second.old × SameSizes s t × (g.lock.number < s.n) }
    ensures { second.new ≡ tags_to s t vol.now g s.p second.old }
{
    for f in 0..s.p {
        let at = layout::tag_at(t, g.lock.number, f);
        words::copy(&mut *second, at, &new_tag(vol, s, g, f));
    }
}

// "same [..] keycounts, epochs": the record in the other width, and the tags under the version to enter.
fn carry_nugget(d: Drive, vol: &[u8], second: &mut [u8], t: Shape, n: u32)
    requires { Shaped (shape_of d) vol.now × Shaped t second.old × SameSizes (shape_of d) t × (n < d.n) }
    ensures { second.new ≡ carried d t vol.now n second.old }
{
    let s = drive::shape_of(d);
    let r = records::read(vol, s, n);
    records::store(&mut *second, t, n, r);
    let secret = nuggets::secret_for(d, r.epoch);
    let g = Nugget {
        lock: nuggets::lock_by(t, d.salt, secret, n, r.keycount),
        held: r.held,
    };
    carry_tags(vol, s, second, t, g);
}

// Every nugget.
fn carry_all(d: Drive, vol: &[u8], second: &mut [u8], t: Shape)
    requires { Shaped (shape_of d) vol.now × Shaped t second.old × SameSizes (shape_of d) t }
    ensures { second.new ≡ carried_to d t vol.now d.n second.old }
{
    for n in 0..d.n {
        carry_nugget(d, vol, &mut *second, t, n);
    }
}

pub fn over(d: Drive, vol: &[u8], second: &mut [u8], t: Shape)
    requires { Shaped (shape_of d) vol.now × Shaped t second.old × SameSizes (shape_of d) t }
    ensures { second.new ≡ carried_over d t vol.now }
{
    copy_flakes(vol, drive::shape_of(d), &mut *second, t);
    carry_all(d, vol, &mut *second, t);
    tree::build(second, t);
}
