ghost use Rattle.std.specs.Prelude.{◌≡◌, ◌+◌, ◌<◌, ◌≤◌, ◌^◌, ◌++◌, length, take, drop, All};
ghost use Rattle.type_check.specs.Numbered.{object_texts};
ghost use Rattle.type_check.specs.Ground.{text_at, bracketed};
ghost use Rattle.ground_all.specs.Sound.{IsSound};

use type_check::Typed;

/// The length of a name and names of objects in brackets.
pub(crate) fn bracketed_len(typed: &Typed, name: &str, objects: &[u32]) -> usize
    requires sound { IsSound typed.now }
    requires short { length name.now ≤ 2 ^ 20 }
    requires few { length objects.now ≤ 8 }
    requires objects { All (λ k. k < length typed.now.objects) objects.now }
    ensures len { result ≡ length (bracketed typed.now name.now objects.now) }
    ensures short { result ≤ 2 ^ 24 }
{
    let mut len = name.len() + 2;
    for object in objects {
        len += 1 + object_name(typed, *object).len();
    }
    len
}

/// Writes a name and names of objects in brackets to the front, and answers how long that is.
pub(crate) fn write_bracketed(typed: &Typed, name: &str, objects: &[u32], into: &mut [u8]) -> usize
    requires objects { All (λ k. k < length typed.now.objects) objects.now }
    requires room { length (bracketed typed.now name.now objects.now) ≤ length into.old }
    ensures len { result ≡ length (bracketed typed.now name.now objects.now) }
    ensures text { into.new ≡ bracketed typed.now name.now objects.now ++ drop result into.old }
{
    let mut at = write(b"(", into, 0);
    at = write(name.as_bytes(), into, at);
    for object in objects {
        at = write(b" ", into, at);
        at = write(object_name(typed, *object).as_bytes(), into, at);
    }
    write(b")", into, at)
}

/// The name of the object with this number.
fn object_name(typed: &Typed, object: u32) -> &str
    requires { object < length typed.now.objects }
    ensures { result.now ≡ text_at (object_texts typed.now) object }
{
    typed.objects[object as usize].name.text.as_str()
}

/// Writes a piece from this place on, and answers the place behind it.
pub(crate) fn write(piece: &[u8], into: &mut [u8], at: usize) -> usize
    requires { at + length piece.now ≤ length into.old }
    ensures place { result ≡ at + length piece.now }
    ensures text { into.new ≡ take at into.old ++ piece.now ++ drop result into.old }
{
    let end = at + piece.len();
    into[at..end].copy_from_slice(piece);
    end
}
