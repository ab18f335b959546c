use std::process::Abort;

/// These words, as those of a command line.
pub(crate) fn owned<R: AllocGlobal + Abort>(rt: &R, words: &[&str]) -> Vec<String> {
    let mut owned = Vec::new(rt.alloc());
    for word in words {
        let word = String::from_str(rt.alloc(), word).expect(rt, "memory");
        owned.push(word).expect(rt, "memory");
    }
    owned
}
