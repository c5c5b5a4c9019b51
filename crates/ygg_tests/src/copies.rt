//! A copy of a layer file.

use std::alloc::Global;
use ygg_base::Tokens;
use ygg_lex::tokens;
use ygg_read::read;
use ygg_syntax::tree::File;
use ygg_syntax::{copy_file, same_tree};

/// A layer with every part that a file may have.
const WHOLE: &[u8] = b"yggdrasil 1;
disk async 2 of 1 of 8;
def next(a : word 8) -> word 8 = (a + 1:8);
layer whole {
  state s : word 8;
  state t : table 2 of 1 of 8;
  start {
    s = 1:8;
  }
  memory m : row  2 of 8;
  format {
    call write(0:8, row(1:8));
    call flush();
  }
  op put(a : word 8) -> word 8 spec {
    let k = choose;
    if k {
      s = a;
    } else {
      t[0:1][0:1] = ~a;
    }
    return pick(all(i:2 below 3, (i < 3:2)), s, resize(a, 8));
  } on crash {
    s = next(s);
  } impl {
    for i:8 below 2 {
      call write(i, row(a));
    }
    let r = call read(0:8);
    m[1:1] = r[0:1];
    return r[0:1];
  }
  crash {
    t[1:1] = fill(1, 0:8);
  }
  tick spin {
    call flush();
  }
  recover {
    m = fill(2, 0:8);
  }
  relate (low.view[0:8][0:1] == s);
  always (m[0:1] <= m[1:1]);
  settled (low.view == low.stable);
  maybe 1:1;
}
";

/// Whether a copy of a file is the same tree.
fn is_copied(alloc: Global, file: &File) -> bool {
    match copy_file(alloc, file) {
        Ok(copy) => {
            let same = same_tree(file, &copy);
            drop(copy);
            same
        }
        Err(_) => false,
    }
}

/// Whether it is, of the file that these tokens are.
fn are_copied(alloc: Global, tokens: &Tokens) -> bool {
    match read(alloc, tokens) {
        Ok(file) => {
            let copied = is_copied(alloc, &file);
            drop(file);
            copied
        }
        Err(_) => false,
    }
}

/// Whether it is, of a file that is written.
fn holds(alloc: Global, text: &[u8]) -> bool {
    text.len() <= 1_048_576 && tokens(alloc, text).is_ok_and(|tokens| are_copied(alloc, &tokens))
}

#[test]
fn a_copy_is_the_same_tree(rt: HostRuntime) {
    assert!(rt; holds(rt.alloc(), WHOLE));
}
