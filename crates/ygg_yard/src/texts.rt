//! The example files, each in its canonical text.

/// One word on a synchronous disk.
pub const FLAG: &[u8] = b"\
yggdrasil 1;
disk sync 1 of 1 of 1;
layer flag {
  state f : word 1;
  op set(v : word 1) spec {
    f = v;
  } impl {
    call write(0:8, row(v));
  }
  relate (low.view[0:8][0:1] == f);
}
";

/// Two words that change together, by a journal on an asynchronous disk.
pub const PAIR: &[u8] = b"\
yggdrasil 1;
disk async 5 of 1 of 8;
layer pair {
  state x : word 8;
  state y : word 8;
  op put(a : word 8, b : word 8) spec {
    x = a;
    y = b;
  } impl {
    call write(1:8, row(a));
    call write(2:8, row(b));
    call flush();
    call write(0:8, row(1:8));
    call flush();
    call write(3:8, row(a));
    call write(4:8, row(b));
    call flush();
    call write(0:8, row(0:8));
    call flush();
  }
  op get(i : word 1) -> word 8 spec {
    return pick(i, y, x);
  } impl {
    let r = call read(pick(i, 4:8, 3:8));
    return r[0:1];
  }
  recover {
    let c = call read(0:8);
    if (c[0:1] == 1:8) {
      let p = call read(1:8);
      let q = call read(2:8);
      call write(3:8, p);
      call write(4:8, q);
      call flush();
      call write(0:8, row(0:8));
      call flush();
    }
  }
  relate ((low.view == low.stable) & ((low.view[0:8][0:1] == 0:8) & ((low.view[3:8][0:1] == x) & (low.view[4:8][0:1] == y))));
  settled (low.view == low.stable);
}
";

/// A word that may be lost until it is saved.
pub const LAZY: &[u8] = b"\
yggdrasil 1;
disk async 1 of 1 of 8;
layer lazy {
  state v : word 8;
  state d : word 8;
  op put(a : word 8) spec {
    v = a;
    let k = choose;
    if k {
      d = a;
    }
  } impl {
    call write(0:8, row(a));
  }
  op save() spec {
    d = v;
  } impl {
    call flush();
  }
  op get() -> word 8 spec {
    return v;
  } impl {
    let r = call read(0:8);
    return r[0:1];
  }
  crash {
    v = d;
  }
  relate ((low.view[0:8][0:1] == v) & (low.stable[0:8][0:1] == d));
  settled (low.view == low.stable);
}
";

/// Two layers: a table whose rows are stored at once, and on it a word that is kept twice.
pub const TWIN: &[u8] = b"\
yggdrasil 1;
disk async 2 of 1 of 8;
layer safe {
  state t : table 2 of 1 of 8;
  op load(a : word 8) -> row \
1 of 8 spec {
    return t[a];
  } impl {
    let r = call read(a);
    return r;
  }
  op store(a : word 8, r : row \
1 of 8) spec {
    t[a] = r;
  } impl {
    call write(a, r);
    call flush();
  }
  relate ((low.view == t) & (low.stable == t));
  settled (low.view == low.stable);
}
layer twin {
  state v : word 8;
  op put(a : word 8) spec {
    v = a;
  } impl {
    call store(0:8, row(a));
    call store(1:8, row(a));
  }
  op get() -> word 8 spec {
    return v;
  } impl {
    let r = call load(0:8);
    return r[0:1];
  }
  recover {
    let r = call load(0:8);
    call store(1:8, r);
  }
  relate ((low.t[0:8][0:1] == v) & (low.t[1:8][0:1] == v));
}
";

/// Sums and shifts at their ends, and a call out of range.
pub const ENDS: &[u8] = b"\
yggdrasil 1;
disk sync 1 of 1 of 1;
layer ends {
  op add(a : word 64, b : word 64) -> word 64 spec {
    return (a + b);
  } impl {
    return (a + b);
  }
  op shl(a : word 64) -> word 64 spec {
    return 0:64;
  } impl {
    return (a << 64:8);
  }
  op far() -> word 1 spec {
    return 0:1;
  } impl {
    let r = call read(1:8);
    return r[0:1];
  }
  relate 1:1;
}
";

/// A count of how often power came back.
pub const BOOTS: &[u8] = b"\
yggdrasil 1;
disk sync 1 of 1 of 8;
layer boots {
  state n : word 8;
  op get() -> word 8 spec {
    return n;
  } impl {
    let r = call read(0:8);
    return r[0:1];
  }
  crash {
    n = (n + 1:8);
  }
  recover {
    let r = call read(0:8);
    call write(0:8, row((r[0:1] + 1:8)));
  }
  relate (low.view[0:8][0:1] == n);
}
";

/// A word that a background step moves from one place to another.
pub const MOVER: &[u8] = b"\
yggdrasil 1;
disk async 3 of 1 of 8;
layer mover {
  state v : word 8;
  op get() -> word 8 spec {
    return v;
  } impl {
    let p = call read(0:8);
    let r = call read((1:8 + (p[0:1] & 1:8)));
    return r[0:1];
  }
  tick move {
    let p = call read(0:8);
    let q = (p[0:1] & 1:8);
    let r = call read((1:8 + q));
    call write((2:8 - q), r);
    call write(0:8, row((1:8 - q)));
    call flush();
  }
  relate ((low.view == low.stable) & (low.view[(1:8 + (low.view[0:8][0:1] & 1:8))][0:1] == v));
  settled (low.view == low.stable);
}
";

/// Exclusive or in two orders.
pub const MIXER: &[u8] = b"\
yggdrasil 1;
disk sync 1 of 1 of 1;
layer mixer {
  op mix(a : word 1, b : word 1, c : word 1) -> word 1 spec {
    return ((a ^ b) ^ c);
  } impl {
    return ((a ^ c) ^ b);
  }
  relate 1:1;
}
";
