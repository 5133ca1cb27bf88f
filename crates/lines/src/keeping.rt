// The bytes of a line kept in a buffer, as many as there is room for, in one copy.
ghost use Rattle.lines.specs.inside.Keeping.{Kept};

// Bytes behind those that are held.
pub fn keep_all(line: &mut [u8], held: usize, bytes: &[u8]) -> usize
    ensures { Kept bytes.now line.old held line.new result }
{
    if line.len() < held {
        return held;
    }
    held + copying::copy_bytes(bytes, &mut line[held..])
}
