//! The files of `examples/`, with the lines that its README states. Written by `examples/as_test.py`.

/// Those that are accepted: name, text, status and lines.
pub const ACCEPTED: [(&str, &str, u8, &str); 14] = [
    (
        "locked.java",
        "class Main { int v guarded_by this; atomic void main() { synchronized (this) { this.v = 7; } } }\n",
        0,
        "Main.main this ? mover : atomic\n",
    ),
    (
        "repaired.java",
        "class Main {\n    int low guarded_by this;\n    int high guarded_by this;\n    atomic void main() {\n        synchronized (this) {\n            this.low = 1;\n            this.high = 2;\n        }\n    }\n}\n",
        0,
        "Main.main this ? mover : atomic\n",
    ),
    (
        "required.java",
        "class Main {\n    int v guarded_by this;\n    void main() {\n    }\n    void set() requires this {\n        this.v = 1;\n    }\n}\n",
        0,
        "Main.main const\nMain.set mover\n",
    ),
    (
        "counter.java",
        "class Cell {\n    int v guarded_by this;\n    atomic void inc() {\n        synchronized (this) {\n            this.v = this.v + 1;\n        }\n    }\n}\n\nclass W implements Runnable {\n    final Cell c;\n    W(Cell c) { this.c = c; }\n    public void run() {\n        this.c.inc();\n    }\n}\n\nclass Main {\n    void main() {\n        final Cell c = new Cell();\n        new Thread(new W(c)).start();\n        new Thread(new W(c)).start();\n    }\n}\n",
        0,
        "Cell.inc this ? mover : atomic\nW.run this.c ? mover : atomic\nMain.main cmpd\n",
    ),
    (
        "tickets.java",
        "class Tickets {\n    int last guarded_by this;\n    atomic int draw() {\n        synchronized (this) {\n            this.last = this.last + 1;\n            return this.last;\n        }\n    }\n}\n\nclass Guest implements Runnable {\n    final Tickets tickets;\n    Guest(Tickets tickets) { this.tickets = tickets; }\n    public void run() {\n        System.out.println(this.tickets.draw());\n    }\n}\n\nclass Main {\n    void main() {\n        final Tickets tickets = new Tickets();\n        new Thread(new Guest(tickets)).start();\n        new Thread(new Guest(tickets)).start();\n    }\n}\n",
        0,
        "Tickets.draw this ? mover : atomic\nGuest.run this.tickets ? atomic : cmpd\nMain.main cmpd\n",
    ),
    (
        "twice_locked.java",
        "class Cell {\n    int v guarded_by this;\n    atomic void inc() {\n        synchronized (this) {\n            this.v = this.v + 1;\n        }\n    }\n    atomic void twice() {\n        synchronized (this) {\n            this.inc();\n            this.inc();\n        }\n    }\n}\n\nclass W implements Runnable {\n    final Cell c;\n    W(Cell c) { this.c = c; }\n    public void run() {\n        this.c.twice();\n    }\n}\n\nclass Main {\n    void main() {\n        final Cell c = new Cell();\n        new Thread(new W(c)).start();\n        new Thread(new W(c)).start();\n    }\n}\n",
        0,
        "Cell.inc this ? mover : atomic\nCell.twice this ? mover : atomic\nW.run this.c ? mover : atomic\nMain.main cmpd\n",
    ),
    (
        "append_locked.java",
        "class Buf {\n    int n guarded_by this;\n    atomic int length() {\n        synchronized (this) { return this.n; }\n    }\n    atomic int get(int k) {\n        synchronized (this) { return this.n - k; }\n    }\n    atomic void append(final Buf sb) {\n        synchronized (this) {\n            synchronized (sb) {\n                int k = sb.length();\n                this.n = this.n + sb.get(k);\n            }\n        }\n    }\n}\n\nclass Main {\n    void main() { }\n}\n",
        0,
        "Buf.length this ? mover : atomic\nBuf.get this ? mover : atomic\nBuf.append this ? (sb ? mover : atomic) : atomic\nMain.main const\n",
    ),
    (
        "account_repaired.java",
        "class Account {\n    int balance guarded_by this;\n\n    atomic int read() {\n        synchronized (this) {\n            return this.balance;\n        }\n    }\n\n    atomic void add(int amount) {\n        synchronized (this) {\n            this.balance = this.balance + amount;\n        }\n    }\n\n    atomic void move(Account other, int amount) {\n        synchronized (this) {\n            if (this.balance >= amount) {\n                this.add(-amount);\n                other.add(amount);\n            }\n        }\n    }\n}\n\nclass Mover implements Runnable {\n    final Account from;\n    final Account to;\n\n    Mover(Account from, Account to) {\n        this.from = from;\n        this.to = to;\n    }\n\n    public void run() {\n        int i = 0;\n        while (i < 60) {\n            this.from.move(this.to, 1);\n            i = i + 1;\n        }\n    }\n}\n\nclass Main {\n    void main() {\n        final Account first = new Account();\n        final Account second = new Account();\n        first.add(100);\n        new Thread(new Mover(first, second)).start();\n        new Thread(new Mover(first, second)).start();\n    }\n}\n",
        0,
        "Account.read this ? mover : atomic\nAccount.add this ? mover : atomic\nAccount.move atomic\nMover.run cmpd\nMain.main cmpd\n",
    ),
    (
        "account_both.java",
        "class Account {\n    int balance guarded_by this;\n\n    atomic int read() {\n        synchronized (this) {\n            return this.balance;\n        }\n    }\n\n    atomic void add(int amount) {\n        synchronized (this) {\n            this.balance = this.balance + amount;\n        }\n    }\n\n    atomic void move(final Account other, int amount) {\n        synchronized (this) {\n            synchronized (other) {\n                if (this.balance >= amount) {\n                    this.add(-amount);\n                    other.add(amount);\n                }\n            }\n        }\n    }\n}\n\nclass Mover implements Runnable {\n    final Account from;\n    final Account to;\n\n    Mover(Account from, Account to) {\n        this.from = from;\n        this.to = to;\n    }\n\n    public void run() {\n        int i = 0;\n        while (i < 60) {\n            this.from.move(this.to, 1);\n            i = i + 1;\n        }\n    }\n}\n\nclass Main {\n    void main() {\n        final Account first = new Account();\n        final Account second = new Account();\n        first.add(100);\n        new Thread(new Mover(first, second)).start();\n        new Thread(new Mover(first, second)).start();\n    }\n}\n",
        0,
        "Account.read this ? mover : atomic\nAccount.add this ? mover : atomic\nAccount.move this ? (other ? mover : atomic) : atomic\nMover.run this.from ? (this.to ? mover : cmpd) : cmpd\nMain.main cmpd\n",
    ),
    (
        "published_repaired.java",
        "class Gauge {\n    int level write_guarded_by this;\n    atomic int read() {\n        return this.level;\n    }\n    atomic void raise() {\n        synchronized (this) {\n            this.level = this.level + 1;\n        }\n    }\n}\n\nclass Main {\n    void main() {\n        new Gauge().raise();\n    }\n}\n",
        0,
        "Gauge.read this ? mover : atomic\nGauge.raise atomic\nMain.main atomic\n",
    ),
    (
        "visitor.java",
        "class Visitor {\n    int sum guarded_by this;\n\n    atomic void add(int amount) {\n        synchronized (this) {\n            this.sum = this.sum + amount;\n        }\n    }\n\n    atomic void circle(Circle circle) {\n    }\n\n    atomic void square(Square square) {\n    }\n}\n\nclass Area extends Visitor {\n    atomic void circle(Circle circle) {\n        this.add(3 * circle.radius * circle.radius);\n    }\n\n    atomic void square(Square square) {\n        this.add(square.side * square.side);\n    }\n}\n\nclass Edge extends Visitor {\n    atomic void square(Square square) {\n        this.add(4 * square.side);\n    }\n}\n\nclass Shape {\n    atomic void accept(final Visitor visitor) {\n    }\n}\n\nclass Circle extends Shape {\n    final int radius;\n    Circle(int radius) { this.radius = radius; }\n    atomic void accept(final Visitor visitor) {\n        visitor.circle(this);\n    }\n}\n\nclass Square extends Shape {\n    final int side;\n    Square(int side) { this.side = side; }\n    atomic void accept(final Visitor visitor) {\n        visitor.square(this);\n    }\n}\n\nclass Walk implements Runnable {\n    final Shape shape;\n    final Visitor visitor;\n    Walk(Shape shape, Visitor visitor) {\n        this.shape = shape;\n        this.visitor = visitor;\n    }\n    public void run() {\n        this.shape.accept(this.visitor);\n    }\n}\n\nclass Main {\n    void main() {\n        final Visitor visitor = new Area();\n        new Thread(new Walk(new Circle(2), visitor)).start();\n        new Thread(new Walk(new Square(3), visitor)).start();\n    }\n}\n",
        0,
        "Visitor.add this ? mover : atomic\nVisitor.circle this ? mover : atomic\nVisitor.square this ? mover : atomic\nArea.circle this ? mover : atomic\nArea.square this ? mover : atomic\nEdge.square this ? mover : atomic\nShape.accept visitor ? mover : atomic\nCircle.accept visitor ? mover : atomic\nSquare.accept visitor ? mover : atomic\nWalk.run this.visitor ? mover : atomic\nMain.main cmpd\n",
    ),
    (
        "buffers.java",
        "class Buf {\n    int n guarded_by this;\n    atomic int length() {\n        synchronized (this) { return this.n; }\n    }\n    atomic void append(final Buf other) {\n        synchronized (this) {\n            synchronized (other) {\n                this.n = this.n + other.length();\n            }\n        }\n    }\n}\n\nclass Appender implements Runnable {\n    final Buf to;\n    final Buf from;\n    Appender(Buf to, Buf from) { this.to = to; this.from = from; }\n    public void run() {\n        this.to.append(this.from);\n    }\n}\n\nclass Main {\n    void main() {\n        final Buf a = new Buf();\n        final Buf b = new Buf();\n        new Thread(new Appender(a, b)).start();\n        new Thread(new Appender(b, a)).start();\n    }\n}\n",
        0,
        "Buf.length this ? mover : atomic\nBuf.append this ? (other ? mover : atomic) : atomic\nAppender.run this.to ? (this.from ? mover : atomic) : atomic\nMain.main cmpd\n",
    ),
    (
        "buffers_ranked.java",
        "class Buf {\n    int n guarded_by this;\n    atomic int length() {\n        synchronized (this) { return this.n; }\n    }\n}\n\nclass Log {\n    int n guarded_by this;\n    atomic void append(final Buf other) {\n        synchronized (this) {\n            synchronized (other) {\n                this.n = this.n + other.length();\n            }\n        }\n    }\n}\n\nclass Appender implements Runnable {\n    final Log to;\n    final Buf from;\n    Appender(Log to, Buf from) { this.to = to; this.from = from; }\n    public void run() {\n        this.to.append(this.from);\n    }\n}\n\nclass Main {\n    void main() {\n        final Log log = new Log();\n        new Thread(new Appender(log, new Buf())).start();\n        new Thread(new Appender(log, new Buf())).start();\n    }\n}\n",
        0,
        "Buf.length this ? mover : atomic\nLog.append this ? (other ? mover : atomic) : atomic\nAppender.run this.to ? (this.from ? mover : atomic) : atomic\nMain.main cmpd\n",
    ),
    (
        "buffers_one_lock.java",
        "class Pair {\n    int first guarded_by this;\n    int second guarded_by this;\n    atomic void append_second() {\n        synchronized (this) {\n            this.first = this.first + this.second;\n        }\n    }\n    atomic void append_first() {\n        synchronized (this) {\n            this.second = this.second + this.first;\n        }\n    }\n}\n\nclass Appender implements Runnable {\n    final Pair pair;\n    Appender(Pair pair) { this.pair = pair; }\n    public void run() {\n        this.pair.append_second();\n    }\n}\n\nclass Other implements Runnable {\n    final Pair pair;\n    Other(Pair pair) { this.pair = pair; }\n    public void run() {\n        this.pair.append_first();\n    }\n}\n\nclass Main {\n    void main() {\n        final Pair pair = new Pair();\n        new Thread(new Appender(pair)).start();\n        new Thread(new Other(pair)).start();\n    }\n}\n",
        0,
        "Pair.append_second this ? mover : atomic\nPair.append_first this ? mover : atomic\nAppender.run this.pair ? mover : atomic\nOther.run this.pair ? mover : atomic\nMain.main cmpd\n",
    ),
];

/// Those that are refused: name, text, status and lines.
pub const REFUSED: [(&str, &str, u8, &str); 13] = [
    (
        "unguarded.java",
        "class Main {\n    int low;\n    int high;\n    atomic void main() {\n        this.low = 1;\n        this.high = 2;\n    }\n}\n",
        2,
        "Main.main: declared atomic, found cmpd\n",
    ),
    (
        "unlocked.java",
        "class Main {\n    int v guarded_by this;\n    void main() {\n        this.v = 7;\n    }\n}\n",
        2,
        "Main.main: declared cmpd, found error\n",
    ),
    (
        "tickets_race.java",
        "class Tickets {\n    int last;\n    atomic int draw() {\n        this.last = this.last + 1;\n        return this.last;\n    }\n}\n\nclass Guest implements Runnable {\n    final Tickets tickets;\n    Guest(Tickets tickets) { this.tickets = tickets; }\n    public void run() {\n        System.out.println(this.tickets.draw());\n    }\n}\n\nclass Main {\n    void main() {\n        final Tickets tickets = new Tickets();\n        new Thread(new Guest(tickets)).start();\n        new Thread(new Guest(tickets)).start();\n    }\n}\n",
        2,
        "Tickets.draw: declared atomic, found cmpd\n",
    ),
    (
        "twice.java",
        "class Cell {\n    int v guarded_by this;\n    atomic void inc() {\n        synchronized (this) {\n            this.v = this.v + 1;\n        }\n    }\n    atomic void twice() {\n        this.inc();\n        this.inc();\n    }\n}\n\nclass W implements Runnable {\n    final Cell c;\n    W(Cell c) { this.c = c; }\n    public void run() {\n        this.c.twice();\n    }\n}\n\nclass Main {\n    void main() {\n        final Cell c = new Cell();\n        new Thread(new W(c)).start();\n        new Thread(new W(c)).start();\n    }\n}\n",
        2,
        "Cell.twice: declared atomic, found cmpd\n",
    ),
    (
        "append.java",
        "class Buf {\n    int n guarded_by this;\n    atomic int length() {\n        synchronized (this) { return this.n; }\n    }\n    atomic int get(int k) {\n        synchronized (this) { return this.n - k; }\n    }\n    atomic void append(final Buf sb) {\n        synchronized (this) {\n            int k = sb.length();\n            this.n = this.n + sb.get(k);\n        }\n    }\n}\n\nclass Main {\n    void main() { }\n}\n",
        2,
        "Buf.append: declared atomic, found cmpd\n",
    ),
    (
        "append_race.java",
        "class Buf {\n    int n guarded_by this;\n    atomic int length() {\n        synchronized (this) { return this.n; }\n    }\n    atomic int get(int k) {\n        synchronized (this) { return this.n - k; }\n    }\n    atomic void set(int n) {\n        synchronized (this) { this.n = n; }\n    }\n    atomic void append(final Buf sb) {\n        synchronized (this) {\n            int k = sb.length();\n            this.n = this.n + sb.get(k);\n        }\n    }\n}\n\nclass Appender implements Runnable {\n    final Buf to;\n    final Buf from;\n    Appender(Buf to, Buf from) { this.to = to; this.from = from; }\n    public void run() {\n        this.to.append(this.from);\n    }\n}\n\nclass Cutter implements Runnable {\n    final Buf buf;\n    Cutter(Buf buf) { this.buf = buf; }\n    public void run() {\n        this.buf.set(0);\n    }\n}\n\nclass Main {\n    void main() {\n        final Buf first = new Buf();\n        final Buf second = new Buf();\n        first.set(3);\n        second.set(5);\n        new Thread(new Appender(first, second)).start();\n        new Thread(new Cutter(second)).start();\n    }\n}\n",
        2,
        "Buf.append: declared atomic, found cmpd\n",
    ),
    (
        "no_rule.java",
        "class Main {\n    void main() {\n        int a = true;\n    }\n}\n",
        1,
        "refused at 3:13: no rule\n",
    ),
    (
        "account_java.java",
        "public class Account {\n    private int balance = 0;\n\n    public synchronized int read() {\n        return balance;\n    }\n\n    public synchronized void add(int amount) {\n        balance += amount;\n    }\n\n    public void move(Account other, int amount) {\n        if (read() >= amount) {\n            add(-amount);\n            other.add(amount);\n        }\n    }\n\n    public static void main(String[] args) {\n        Account[] accounts = { new Account(), new Account() };\n        accounts[0].add(100);\n        for (int k = 0; k < 2; k++) {\n            new Thread(() -> {\n                for (int i = 0; i < 60; i++) {\n                    accounts[0].move(accounts[1], 1);\n                }\n            }).start();\n        }\n    }\n}\n",
        1,
        "refused at 19:35: bad character\n",
    ),
    (
        "account.java",
        "class Account {\n    int balance guarded_by this;\n\n    atomic int read() {\n        synchronized (this) {\n            return this.balance;\n        }\n    }\n\n    atomic void add(int amount) {\n        synchronized (this) {\n            this.balance = this.balance + amount;\n        }\n    }\n\n    atomic void move(Account other, int amount) {\n        if (this.read() >= amount) {\n            this.add(-amount);\n            other.add(amount);\n        }\n    }\n}\n\nclass Mover implements Runnable {\n    final Account from;\n    final Account to;\n\n    Mover(Account from, Account to) {\n        this.from = from;\n        this.to = to;\n    }\n\n    public void run() {\n        int i = 0;\n        while (i < 60) {\n            this.from.move(this.to, 1);\n            i = i + 1;\n        }\n    }\n}\n\nclass Main {\n    void main() {\n        final Account first = new Account();\n        final Account second = new Account();\n        first.add(100);\n        new Thread(new Mover(first, second)).start();\n        new Thread(new Mover(first, second)).start();\n    }\n}\n",
        2,
        "Account.move: declared atomic, found cmpd\n",
    ),
    (
        "account_bare.java",
        "class Account {\n    int balance guarded_by this;\n\n    atomic int read() {\n        synchronized (this) {\n            return this.balance;\n        }\n    }\n\n    atomic void add(int amount) {\n        synchronized (this) {\n            this.balance = this.balance + amount;\n        }\n    }\n\n    atomic void move(Account other, int amount) {\n        if (this.balance >= amount) {\n            synchronized (this) {\n                this.add(-amount);\n                other.add(amount);\n            }\n        }\n    }\n}\n\nclass Mover implements Runnable {\n    final Account from;\n    final Account to;\n\n    Mover(Account from, Account to) {\n        this.from = from;\n        this.to = to;\n    }\n\n    public void run() {\n        int i = 0;\n        while (i < 60) {\n            this.from.move(this.to, 1);\n            i = i + 1;\n        }\n    }\n}\n\nclass Main {\n    void main() {\n        final Account first = new Account();\n        final Account second = new Account();\n        first.add(100);\n        new Thread(new Mover(first, second)).start();\n        new Thread(new Mover(first, second)).start();\n    }\n}\n",
        2,
        "Account.move: declared atomic, found error\n",
    ),
    (
        "account_not_a_lock.java",
        "class Account {\n    int balance guarded_by this;\n\n    atomic int read() {\n        synchronized (this) {\n            return this.balance;\n        }\n    }\n\n    atomic void add(int amount) {\n        synchronized (this) {\n            this.balance = this.balance + amount;\n        }\n    }\n\n    atomic void move(Account other, int amount) {\n        synchronized (this) {\n            synchronized (other) {\n                if (this.balance >= amount) {\n                    this.add(-amount);\n                    other.add(amount);\n                }\n            }\n        }\n    }\n}\n\nclass Mover implements Runnable {\n    final Account from;\n    final Account to;\n\n    Mover(Account from, Account to) {\n        this.from = from;\n        this.to = to;\n    }\n\n    public void run() {\n        int i = 0;\n        while (i < 60) {\n            this.from.move(this.to, 1);\n            i = i + 1;\n        }\n    }\n}\n\nclass Main {\n    void main() {\n        final Account first = new Account();\n        final Account second = new Account();\n        first.add(100);\n        new Thread(new Mover(first, second)).start();\n        new Thread(new Mover(first, second)).start();\n    }\n}\n",
        1,
        "refused at 18:27: not a lock\n",
    ),
    (
        "published.java",
        "class Gauge {\n    int level write_guarded_by this;\n    atomic int read() {\n        return this.level;\n    }\n    atomic void raise() {\n        this.level = this.level + 1;\n    }\n}\n\nclass Main {\n    void main() {\n        new Gauge().raise();\n    }\n}\n",
        2,
        "Gauge.raise: declared atomic, found error\n",
    ),
    (
        "published_twice.java",
        "class Gauge {\n    int level write_guarded_by this;\n    atomic int read() {\n        return this.level;\n    }\n    atomic void raise() {\n        synchronized (this) {\n            this.level = this.level + 1;\n            this.level = this.level + 1;\n        }\n    }\n}\n\nclass Main {\n    void main() {\n        new Gauge().raise();\n    }\n}\n",
        2,
        "Gauge.raise: declared atomic, found cmpd\n",
    ),
];
